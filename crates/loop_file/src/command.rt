//! What a line of a loop file says. The names are parts of the file.
use family::Params;

#[derive(Clone, Copy, PartialEq, Debug)]
pub enum Command<'a> {
    // An empty line or a comment.
    Nothing,
    Block {
        name: &'a [u8],
        kind: &'a [u8],
        params: Params,
    },
    Wire {
        target: &'a [u8],
        port: u8,
        source: &'a [u8],
    },
    Cut {
        target: &'a [u8],
        port: u8,
    },
    Drop {
        name: &'a [u8],
    },
    Tune {
        name: &'a [u8],
        params: Params,
    },
    Feed {
        name: &'a [u8],
        number: i32,
    },
    Scan {
        times: u32,
    },
    Show {
        name: &'a [u8],
    },
}
