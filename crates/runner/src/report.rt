//! What a run came to.
use loop_file::Stop;

/// How many bytes of the reply a run wrote, and how it came out: how many lines it ran, or at which line it stopped.
#[derive(Clone, Copy)]
pub struct Report {
    pub written: usize,
    pub outcome: Result<u32, Stop>,
}
