//! A kiln that is brought to its set point, printed scan by scan.
#![tactic(auto)]

ghost use Rattle.std.specs.Prelude.{◌≡◌};

mod plant;

use family::{Family, Params};
use interlock_blocks::Interlocks;
use loop_blocks::{Loops, lag_scans};
use plant::{Heating, Lamp, Readings};
use std::io;

// From this reading on the kiln is warm.
const WARM: i32 = 600;

// The codes of the kinds that are drawn.
const IN: u8 = 1;

const PIDT: u8 = 3;

const LIM: u8 = 4;

const LAG: u8 = 6;

const TIMER: u8 = 7;

// A fresh block of a kind, by its code.
fn block<F: Family>(code: u8, p: i32, q: i32, r: i32) -> F::Record
    ensures { result ≡ F.fresh code (record { p = p; q = q; r = r }) }
{
    F::fresh(code, Params { p, q, r })
}

// The loop as drawn: set point 650, a pidt, a lim of 0 to 800, and a lag.
fn drawn() -> Heating {
    Heating {
        set: block::<Loops>(IN, 650, 0, 0),
        control: block::<Loops>(PIDT, 1500, 400, 200),
        limit: block::<Loops>(LIM, 0, 800, 0),
        kiln: block::<Loops>(LAG, 150, 0, 0),
    }
}

fn main(rt: HostRuntime) -> io::Result<()> {
    let scans = lag_scans();
    println!(rt; "a steady valve brings the kiln within one unit after at most {scans} scans")?;
    println!(rt; "scan  set  kiln  control  valve  ready")?;
    let mut heating = drawn();
    let mut lamp = Lamp {
        switch: block::<Interlocks>(IN, 0, 0, 0),
        timer: block::<Interlocks>(TIMER, 3, 0, 0),
    };
    for n in 1..31 {
        let readings = heating.solved();
        let ready = if lamp.is_lit() { "yes" } else { "no" };
        let Readings {
            set,
            kiln,
            control,
            valve,
        } = readings;
        println!(rt; "{n:>4} {set:>4} {kiln:>5} {control:>8} {valve:>6}  {ready}")?;
        heating = heating.settled(readings);
        lamp = lamp.settled(WARM, kiln);
    }
    Ok(())
}
