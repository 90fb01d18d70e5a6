ghost use Rattle.std.specs.Prelude.{◌≡◌, ◌≤◌, ℕ, List, [], ◌∷◌, ◌++◌, length, drop, true, IsOk, IsErrOf, OnOk};
ghost use Rattle.solo_base.specs.Text.{line_text};
ghost use Rattle.solo_devices.specs.Count.{Rose};
ghost use Rattle.solo_devices.specs.PrinterUnit.{Gains, fresh_printer};

use crate::{Gave, Sink};
use arrayvec::ArrayVec;
use solo_base::Line;
use std::marker::Model;

/// Why a line wasn't printed.
#[derive(Clone, Copy, Debug, PartialEq, Eq)]
pub enum PrintFault {
    /// The sink failed, or took nothing.
    Failed,
    NoMemory,
}

/// Prints lines on a sink, each with a line feed behind it.
#[derive(Debug, Drop)]
pub struct PrinterUnit<K> {
    sink: K,
    live: bool,
}

impl<K> Model for PrinterUnit<K> {
    ghost use Rattle.solo_devices.specs.PrinterUnit.{Printing, printing_code};

    ghost Value = { Printing K };

    ghost coded = { printing_code K.code };

    ghost view = { λ unit. record { sink = unit.sink; live = unit.live } };
}

impl<K: Sink> PrinterUnit<K> {
    /// A unit that printed nothing.
    pub fn new(sink: K) -> PrinterUnit<K>
        ensures { result ≡ fresh_printer sink }
    {
        PrinterUnit { sink, live: true }
    }

    /// Prints a line, offered to the sink as one piece. After a refusal, which may have printed its
    /// beginning, nothing more is printed.
    pub fn print(&mut self, line: &Line) -> Result<(), PrintFault>
        requires { self.old.live ≡ true }
        ensures line { Gains (K.given self.old.sink) (K.given self.new.sink) (line_text line.now) (IsOk result) }
        ensures counts { K.faults self.old.sink ≤ K.faults self.new.sink }
        ensures failed { IsErrOf result PrintFault.Failed → Rose (K.faults self.old.sink) (K.faults self.new.sink) }
        ensures live { OnOk result (self.new.live ≡ true) }
    {
        let mut piece: ArrayVec<u8, PIECE_LENGTH> = ArrayVec::new();
        let _ = piece.try_extend_from_slice(line.bytes());
        piece.push(b'\n');
        let result = give_all(&mut self.sink, piece.as_slice());
        self.live = result.is_ok();
        result
    }

    /// The sink, with what it was given.
    pub fn into_inner(self) -> K
        ensures { result ≡ self.sink }
    {
        let PrinterUnit { sink, live: _ } = self;
        sink
    }
}

/// A line and its line feed.
const PIECE_LENGTH: usize = 133;

/// Gives the bytes, however many of them the sink takes in a call.
fn give_all<K: Sink>(sink: &mut K, piece: &[u8]) -> Result<(), PrintFault>
    ensures bytes { Gains (K.given sink.old) (K.given sink.new) piece.now (IsOk result) }
    ensures counts { K.faults sink.old ≤ K.faults sink.new }
    ensures failed { IsErrOf result PrintFault.Failed → Rose (K.faults sink.old) (K.faults sink.new) }
{
    let mut rest = piece;
    'giving: while !rest.is_empty() {
        match sink.give(rest) {
            Gave::Bytes(count) => {
                if count == 0 {
                    return Err(PrintFault::Failed);
                }
                rest = behind(rest, count);
            }
            Gave::Failed => return Err(PrintFault::Failed),
            Gave::NoMemory => return Err(PrintFault::NoMemory),
        }
    }
    Ok(())
}

/// The bytes behind the first so many.
fn behind(bytes: &[u8], count: usize) -> &[u8]
    requires { count ≤ length bytes.now }
    ensures { result.now ≡ drop count bytes.now }
{
    &bytes[count..]
}
