//! The slots of a diagram: which are taken, how often each was emptied, and which one the next block gets.
#![tactic(auto)]

mod slot;
mod slots;

pub use slots::Slots;

#[cfg(test)]
mod tests;
