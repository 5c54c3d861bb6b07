//! Runs a file of interlocks: `locks < FILE`.
#![tactic(auto)]

use family::{Family, Params};
use interlock_blocks::Interlocks;
use session::fresh_interlocks;
use std::io;

// The code of the kind `in`.
const IN: u8 = 1;

fn main(rt: HostRuntime) -> io::Result<()> {
    let mut records = [Interlocks::fresh(IN, Params { p: 0, q: 0, r: 0 }); 256];
    let mut signals = [Interlocks::rest(); 256];
    let mut file = [0u8; 16385];
    let mut reply = [0u8; 32768];
    console::answer(
        rt,
        &mut fresh_interlocks(),
        &mut records,
        &mut signals,
        &mut file,
        &mut reply,
    )
}
