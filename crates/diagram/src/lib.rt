//! A block diagram over two rows that its caller lends, for any family.
#![tactic(auto)]

mod diagram;
mod rows;
mod token;

pub use diagram::Diagram;
pub use token::ScanToken;
