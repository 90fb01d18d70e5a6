use crate::{Ident, Page};

/// An argument of a program or of a command.
#[derive(Clone, Copy, Debug, Default)]
pub enum Arg {
    #[default]
    Nil,
    Bool(bool),
    Int(i16),
    Id(Ident),
}

/// What a program asks of the system that runs it. `f` is the number of an open file and `p` that
/// of a page, from 1; names are twelve characters as the program's words.
#[derive(Clone, Copy, Debug)]
pub enum SysCall {
    Read,
    Write(u8),
    WriteInt(i16),
    Accept,
    Display(u8),
    Open {
        f: i16,
        name: [i16; 12],
    },
    Close(i16),
    Get {
        f: i16,
        p: i16,
    },
    Put {
        f: i16,
        p: i16,
        page: Page,
    },
    Length(i16),
    Lookup([i16; 12]),
    ReadArg,
    WriteArg {
        tag: i16,
        number: i16,
        name: [i16; 12],
    },
    /// `left` is the ticks that are left to the caller.
    Run {
        name: [i16; 12],
        left: u32,
    },
}

/// What the system answers. `Done` answers each call that gives nothing back.
#[derive(Clone, Copy, Debug)]
pub enum SysReply {
    Done,
    Char(u8),
    Opened(bool),
    Page(Page),
    Length(i16),
    Found {
        kind: i16,
        found: bool,
    },
    Argument {
        tag: i16,
        number: i16,
        name: [u8; 12],
    },
    /// How the called program ended; `ticks` is what it took.
    Ran {
        line: i16,
        result: i16,
        ticks: u32,
    },
    CallError,
}
