use solo_base::{ArgList, Ident};

/// What a typed line asks for.
#[derive(Debug, Drop)]
pub enum Command {
    /// The cards or a file are copied to the printer or to a new file: `from` is CARDS or the name of a file,
    /// and `to` is PRINTER or the name of a file.
    Copy { from: Ident, to: Ident },
    /// The text of a file is compiled to a new file.
    Compile { from: Ident, to: Ident },
    /// The files are listed.
    List,
    Delete(Ident),
    Rename { old: Ident, new: Ident },
    /// A file is protected, or no longer.
    Protect { name: Ident, on: bool },
    /// The program of a file is run with these arguments.
    Program { name: Ident, args: ArgList },
}

/// The line is no command.
#[derive(Clone, Copy, Debug, PartialEq, Eq)]
pub struct BadCommand;
