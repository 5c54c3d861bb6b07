//! What the two programs share: a file is checked and run, and its reply goes out.
#![tactic(auto)]

mod input;
mod service;

pub use input::answer;
pub use service::serve;
