//! Fresh diagrams, with the law that every session of calls on one keeps.
#![tactic(auto)]

ghost use Rattle.family.specs.Meaning.{meaning};
ghost use Rattle.loop_blocks.specs.Loops.{loops};
ghost use Rattle.interlock_blocks.specs.Interlocks.{interlocks};
ghost use Rattle.session.specs.Law.{SessionLaw};
ghost use Rattle.session.specs.Begun.{Begun};

use diagram::Diagram;
use family::Family;
use interlock_blocks::Interlocks;
use loop_blocks::Loops;

/// The law of sessions holds of every family.
pub fn sessions<F: Family>()
    ensures { SessionLaw (meaning F.Family) }
{}

/// A diagram with no block and no open scan, of which the law of sessions holds.
pub fn fresh<F: Family>() -> Diagram<F>
    ensures { Begun (meaning F.Family) result }
{
    Diagram::fresh()
}

/// A fresh diagram of loops.
pub fn fresh_loops() -> Diagram<Loops>
    ensures { Begun loops result }
{
    fresh::<Loops>()
}

/// A fresh diagram of interlocks.
pub fn fresh_interlocks() -> Diagram<Interlocks>
    ensures { Begun interlocks result }
{
    fresh::<Interlocks>()
}
