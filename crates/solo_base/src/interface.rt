ghost use Rattle.std.specs.Prelude.{◌≡◌};
ghost use Rattle.solo_base.specs.Interface.{procedure_at, call_row_of, call_row};

use crate::{IDENT_LENGTH, PAGE_LENGTH};

/// A row of the interface between a program and the system that runs it.
#[derive(Clone, Copy, Debug, PartialEq, Eq)]
pub enum Procedure {
    Read,
    Write,
    WriteInt,
    Accept,
    Display,
    Open,
    Close,
    Get,
    Put,
    Length,
    Lookup,
    ReadArg,
    WriteArg,
    Run,
}

/// What a procedure of the interface takes and gives: how many values it pops, the words of its
/// array (0 where it has none), and how many words are pushed for the variables that it sets and
/// for its result.
#[derive(Clone, Copy, Debug)]
pub struct CallRow {
    pub values: u8,
    pub array: u16,
    pub results: u8,
}

impl Procedure {
    /// The procedure of the row with this number, or `None` from 14 on.
    pub fn at(number: u16) -> Option<Procedure>
        ensures { result ≡ procedure_at number }
    {
        match number {
            0 => Some(Procedure::Read),
            1 => Some(Procedure::Write),
            2 => Some(Procedure::WriteInt),
            3 => Some(Procedure::Accept),
            4 => Some(Procedure::Display),
            5 => Some(Procedure::Open),
            6 => Some(Procedure::Close),
            7 => Some(Procedure::Get),
            8 => Some(Procedure::Put),
            9 => Some(Procedure::Length),
            10 => Some(Procedure::Lookup),
            11 => Some(Procedure::ReadArg),
            12 => Some(Procedure::WriteArg),
            13 => Some(Procedure::Run),
            _ => None,
        }
    }

    /// What the procedure takes and gives.
    pub fn row(self) -> CallRow
        ensures { result ≡ call_row_of self }
    {
        let (name, page) = (IDENT_LENGTH as u16, PAGE_LENGTH as u16);
        let (values, array, results) = match self {
            Procedure::Read | Procedure::Accept => (0, 0, 1),
            Procedure::Write | Procedure::WriteInt | Procedure::Display | Procedure::Close => {
                (1, 0, 0)
            }
            Procedure::Open => (1, name, 1),
            Procedure::Get | Procedure::Put => (2, page, 0),
            Procedure::Length => (1, 0, 1),
            Procedure::Lookup | Procedure::ReadArg | Procedure::Run => (0, name, 2),
            Procedure::WriteArg => (2, name, 0),
        };
        CallRow {
            values,
            array,
            results,
        }
    }
}

/// The row of the interface with this number, or `None` from 14 on.
pub fn call_row(number: u16) -> Option<CallRow>
    ensures { result ≡ call_row number }
{
    match Procedure::at(number) {
        Some(procedure) => Some(procedure.row()),
        None => None,
    }
}
