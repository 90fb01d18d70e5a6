// The calls of a running buffer.

use solo_base::Side;

/// A completed call of an end, with what it answered.
#[derive(Drop)]
pub enum SlotCall<T> {
    Put(T),
    /// The receiver had stopped first, and the item was handed back.
    PutRefused(T),
    Take(T),
    /// The sender had stopped first, and nothing was left.
    TakeRefused,
    Stop(Side),
}
