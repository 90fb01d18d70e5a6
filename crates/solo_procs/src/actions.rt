// What Solo's processes do, and what they are answered.

use solo_base::{Arg, BufferNo, Line, Outcome, Page};
use solo_devices::CardRead;

/// What a process of Solo does.
#[derive(Drop)]
pub enum SoloAction {
    /// Accepts the next typed line.
    Accept,
    /// Displays a line on the console.
    Display(Line),
    /// Reads the next card of the deck.
    ReadCard,
    /// Prints a line on the paper.
    Print(Line),
    /// Puts an argument into a buffer.
    PutArg { buffer: BufferNo, arg: Arg },
    /// Takes an argument from a buffer.
    TakeArg(BufferNo),
    /// Puts a page into a buffer.
    PutPage { buffer: BufferNo, page: Page },
    /// Takes a page from a buffer.
    TakePage(BufferNo),
    /// Works on its files and programs.
    Work,
    /// Stops a buffer at its own side.
    Stop(BufferNo),
    /// Ends.
    Ended(Outcome),
}

/// What a process of Solo is answered.
#[derive(Drop)]
pub enum SoloReply {
    /// It is done.
    Done,
    /// The other side has stopped the buffer.
    Stopped,
    /// The device failed.
    Failed,
    /// Memory was refused.
    NoMemory,
    /// What was read of the deck, or was typed.
    Card(CardRead),
    /// The argument that was taken from a buffer.
    Arg(Arg),
    /// The page that was taken from a buffer.
    Page(Page),
}
