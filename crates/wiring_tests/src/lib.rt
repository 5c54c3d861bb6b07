//! Wirings that are built by hand, and the orders that they come to.
#![tactic(auto)]

#[cfg(test)]
mod tests;
