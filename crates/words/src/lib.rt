//! A file is read by lines, and a line by words; what is given are parts of the file.
#![tactic(auto)]

mod lines;
mod reader;
mod split;
mod word;
mod words;

pub use lines::Lines;
pub use reader::Reader;
pub use word::Word;
pub use words::Words;
