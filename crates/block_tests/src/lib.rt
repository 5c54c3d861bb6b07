//! Both families on examples worked out by hand.
#![tactic(auto)]

#[cfg(test)]
mod interlocks;
#[cfg(test)]
mod loops;
#[cfg(test)]
mod shared;
