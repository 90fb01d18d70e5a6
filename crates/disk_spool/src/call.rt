// The calls of a running spool.

use solo_base::Side;

/// A completed call of an end, with what it answered. A `P` is a page.
#[derive(Drop)]
pub enum SpoolCall<P> {
    /// The sender awaited room, or the receiver an item, and it was there.
    Await(Side),
    /// The other side had stopped first, and nothing more came of it.
    AwaitRefused(Side),
    Put(P),
    PutFailed(P),
    /// The page that was taken, and the mark that was answered with it.
    Take(P, bool),
    TakeFailed,
    Stop(Side),
}
