//! Runs a file of loops: `loops < FILE`.
#![tactic(auto)]

use family::{Family, Params};
use loop_blocks::Loops;
use session::fresh_loops;
use std::io;

// The code of the kind `in`.
const IN: u8 = 1;

fn main(rt: HostRuntime) -> io::Result<()> {
    let mut records = [Loops::fresh(IN, Params { p: 0, q: 0, r: 0 }); 256];
    let mut signals = [Loops::rest(); 256];
    let mut file = [0u8; 16385];
    let mut reply = [0u8; 32768];
    console::answer(
        rt,
        &mut fresh_loops(),
        &mut records,
        &mut signals,
        &mut file,
        &mut reply,
    )
}
