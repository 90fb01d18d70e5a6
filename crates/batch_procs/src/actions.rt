// What a process does, and what it is answered.

use crate::Lent;
use solo_base::{BufferNo, Feed, Ident, Line, Outcome, Page};
use solo_devices::CardRead;

/// What a process does. It lends what it hands over.
#[derive(Drop)]
pub enum Action<'a> {
    /// Reads the next card of the deck.
    ReadCard,
    /// Puts what is handed over into the line buffer behind it.
    PutFeed(Lent<'a, Feed>),
    /// Takes what is handed over from the line buffer before it.
    TakeFeed,
    /// Waits until the spool behind it has room for a page.
    AwaitRoom,
    /// Waits until the spool before it has a page.
    AwaitItem,
    /// Asks for the disk.
    Request,
    /// Puts a page into the spool behind it.
    PutPage(Lent<'a, Page>),
    /// Takes a page from the spool before it.
    TakePage,
    /// Loads the file of this name, for a job.
    Load(Ident),
    /// Gives the disk back.
    Release,
    /// Works on what it took.
    Local,
    /// Prints a line.
    Print(Lent<'a, Line>),
    /// Stops a buffer at its own side.
    Stop(BufferNo),
    /// Ends.
    Ended(Outcome),
}

/// What a process is answered, where the file of a job is loaded as an `L`. A page is lent.
#[derive(Drop)]
pub enum Reply<'a, L> {
    /// It is done.
    Done,
    /// The other side has stopped the buffer.
    Stopped,
    /// The device failed.
    Failed,
    /// Memory was refused.
    NoMemory,
    /// What was read of the deck.
    Card(CardRead),
    /// What was taken from a line buffer.
    Feed(Feed),
    /// The page that was taken from a spool, and the mark with which it was put.
    Page { page: Lent<'a, Page>, last: bool },
    /// What the file of a job was loaded as.
    Loaded(L),
}
