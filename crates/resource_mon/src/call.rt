// The calls at a running disk resource.

/// A completed call of a seat.
#[derive(Clone, Copy, Debug, PartialEq, Eq)]
pub enum DiskCall {
    /// The resource was asked for and granted.
    Request,
    Release,
}
