// What goes through the buffers of a pipeline.

/// An item, or the end: no more items come. Where a buffer is stopped before its end, what came is a first
/// part.
#[derive(Drop)]
pub enum Parcel<T> {
    Item(T),
    End,
}
