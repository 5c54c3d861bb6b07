//! Runs of checked files on a diagram.
#![tactic(auto)]

mod lines;
mod names;
mod obey;
mod report;
mod runs;
mod scans;

pub use names::Names;
pub use report::Report;
pub use runs::run;
