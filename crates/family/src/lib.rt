//! The interface of block families: what a diagram asks of a family of blocks, and what families share.
#![tactic(auto)]

mod checks;
mod counted;
mod interface;
mod kinds;
mod values;

pub use checks::{bad_but, first_bad, is_among, is_within, is_word};
pub use counted::Counted;
pub use interface::Family;
pub use kinds::BlockKind;
pub use values::{Inputs, Params};
