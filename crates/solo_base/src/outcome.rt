ghost use Rattle.std.specs.Prelude.{◌≡◌, pos};
ghost use Rattle.solo_base.specs.Arguments.{result_number, line_number};

/// A process of a batch or of Solo, by its number, from 1.
pub type ProcNo = u8;

/// A buffer between two processes, by its number, from 1.
pub type BufferNo = u8;

/// The two sides of a buffer.
#[derive(Clone, Copy, Debug, PartialEq, Eq)]
pub enum Side {
    Sender,
    Receiver,
}

/// How a program ends.
#[derive(Clone, Copy, Debug, PartialEq, Eq)]
pub enum ProgResult {
    Terminated,
    Overflow,
    RangeError,
    StackLimit,
    CodeLimit,
    TimeLimit,
    CallError,
}

impl ProgResult {
    /// The number by which a program is told how another ended: 0 to 6, in the order of the variants.
    pub fn number(self) -> i16
        ensures { result ≡ pos (result_number self) }
    {
        match self {
            ProgResult::Terminated => 0,
            ProgResult::Overflow => 1,
            ProgResult::RangeError => 2,
            ProgResult::StackLimit => 3,
            ProgResult::CodeLimit => 4,
            ProgResult::TimeLimit => 5,
            ProgResult::CallError => 6,
        }
    }
}

/// The line in which a program ended, as a word: a line over 32767 is told as 32767.
pub fn line_word(line: u32) -> i16
    ensures { result ≡ pos (line_number line) }
{
    i16::try_from(line).unwrap_or(i16::MAX)
}

/// How a process ends: its work done, with a fault of its own, or since another process stopped a
/// buffer that it uses.
#[derive(Clone, Copy, Debug, PartialEq, Eq)]
pub enum Outcome {
    Done,
    Fault(Cause),
    Stopped,
}

/// Why a command or a process didn't do its whole work.
#[derive(Clone, Copy, Debug, PartialEq, Eq)]
pub enum Cause {
    /// The words are no command.
    Usage,
    /// The deck or the typewriter couldn't be read.
    ReadFault,
    /// A disk couldn't be read or written.
    DiskFault,
    /// The printer didn't print.
    PrintFault,
    /// The typewriter didn't print.
    ConsoleFault,
    /// The deck or what was typed has more than 16,777,216 bytes.
    DeckLimit,
    /// The disk isn't a Solo disk: `page` is the least page that breaks its layout.
    NotSolo { page: u16 },
    /// A page of a spool isn't the page that was put: `at` is the least byte that shows it.
    Damaged { expected: u16, found: u16, at: u16 },
    /// Memory was refused.
    NoMemory,
}
