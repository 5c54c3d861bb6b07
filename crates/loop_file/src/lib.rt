//! Loop files: their grammar, the check, and the lines of the reply.
#![tactic(auto)]

mod checked;
mod closing;
mod command;
mod commands;
mod lines;
mod parse;
mod put;
mod shown;
mod stop;
mod take;
mod verb;

pub use checked::CheckedFile;
pub use closing::close;
pub use command::Command;
pub use commands::Commands;
pub use parse::command_of;
pub use shown::write_shown;
pub use stop::Stop;
