// What the six processes do. What they are answered is what the batch's five are.

use solo_base::{BufferNo, Feed, Ident, Line, Outcome, Page};

/// What a process of the twin network does. A call at a buffer has the buffer's number.
#[derive(Drop)]
pub enum TwinAction {
    /// Reads the next card of the deck.
    ReadCard,
    /// Puts what is handed over into a line buffer.
    PutFeed { buffer: BufferNo, feed: Feed },
    /// Takes what is handed over from a line buffer.
    TakeFeed(BufferNo),
    /// Waits until a spool has room for a page.
    AwaitRoom(BufferNo),
    /// Waits until a spool has a page.
    AwaitItem(BufferNo),
    /// Asks for the disk.
    Request,
    /// Puts a page into a spool.
    PutPage { buffer: BufferNo, page: Page },
    /// Takes a page from a spool.
    TakePage(BufferNo),
    /// Loads the file of this name, for a job.
    Load(Ident),
    /// Gives the disk back.
    Release,
    /// Works on what it took.
    Local,
    /// Prints a line.
    Print(Line),
    /// Stops a buffer at its own side.
    Stop(BufferNo),
    /// Ends.
    Ended(Outcome),
}
