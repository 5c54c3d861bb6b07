//! Loop files and closing lines on examples worked out by hand.
#![tactic(auto)]

#[cfg(test)]
mod closings;
#[cfg(test)]
mod files;
#[cfg(test)]
mod lines;
