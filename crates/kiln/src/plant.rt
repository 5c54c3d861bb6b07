//! A closed loop and an interlock, stepped through their families' functions.
ghost use Rattle.std.specs.Prelude.{◌≡◌};
ghost use Rattle.kiln.specs.Plant.{Solved, Settled, Moved, lit};

use family::{Family, Inputs};
use interlock_blocks::{InterlockRecord, Interlocks};
use loop_blocks::{LoopRecord, Loops};

/// The loop: a set point, a controller that tracks the valve, the limiter before the valve, and the kiln as a lag.
#[derive(Clone, Copy, Drop)]
pub struct Heating {
    pub set: LoopRecord,
    pub control: LoopRecord,
    pub limit: LoopRecord,
    pub kiln: LoopRecord,
}

/// The signals of one scan of the loop.
#[derive(Clone, Copy, Drop)]
pub struct Readings {
    pub set: i32,
    pub kiln: i32,
    pub control: i32,
    pub valve: i32,
}

/// The interlock: a switch, and a timer that lights the lamp once the switch has been on for a while.
#[derive(Clone, Copy, Drop)]
pub struct Lamp {
    pub switch: InterlockRecord,
    pub timer: InterlockRecord,
}

// Signals at rest.
const REST: Inputs<i32> = Inputs { a: 0, b: 0, c: 0 };

const OFF: Inputs<bool> = Inputs {
    a: false,
    b: false,
    c: false,
};

impl Heating {
    /// The signals, each from those before it.
    pub fn solved(self) -> Readings
        ensures { Solved self result }
    {
        let set = Loops::output(self.set, REST);
        let kiln = Loops::output(self.kiln, REST);
        let control = Loops::output(
            self.control,
            Inputs {
                a: set,
                b: kiln,
                ..REST
            },
        );
        let valve = Loops::output(self.limit, Inputs { a: control, ..REST });
        Readings {
            set,
            kiln,
            control,
            valve,
        }
    }

    /// The records after the scan.
    pub fn settled(self, r: Readings) -> Heating
        ensures { Settled self r result }
    {
        Heating {
            set: Loops::next(self.set, REST),
            control: Loops::next(
                self.control,
                Inputs {
                    a: r.set,
                    b: r.kiln,
                    c: r.valve,
                },
            ),
            limit: Loops::next(
                self.limit,
                Inputs {
                    a: r.control,
                    ..REST
                },
            ),
            kiln: Loops::next(self.kiln, Inputs { a: r.valve, ..REST }),
        }
    }
}

impl Lamp {
    /// Whether the lamp is on.
    pub fn is_lit(self) -> bool
        ensures { result ≡ lit self }
    {
        let a = Interlocks::output(self.switch, OFF);
        Interlocks::output(self.timer, Inputs { a, ..OFF })
    }

    /// The records after the scan: the switch is on while the reading is at or above the level.
    pub fn settled(self, level: i32, reading: i32) -> Lamp
        ensures { Moved self level reading result }
    {
        let a = Interlocks::output(self.switch, OFF);
        Lamp {
            switch: Interlocks::fed(self.switch, i32::from(level <= reading)),
            timer: Interlocks::next(self.timer, Inputs { a, ..OFF }),
        }
    }
}
