//! The devices of the real world: a source over a reader, a sink over a writer, an area over a part of a
//! drive. The first two tell what their reader or writer tells, where that is asked for; what failed is
//! counted.
#![tactic(auto)]

mod calls;
mod deck;
mod drive_area;
mod drive_file;
mod paper;
mod reader_source;
mod record;
mod retried;
mod start;
mod streams;
mod tells;
mod writer_sink;

pub use calls::{Calls, Recorded};
pub use deck::deck_over;
pub use drive_area::DriveArea;
pub use drive_file::{OwnDrive, open_drive, take_drive};
pub use paper::paper_over;
pub use reader_source::ReaderSource;
pub use start::{Start, Unknown};
pub use streams::{Streams, hold_streams, reads_file};
pub use tells::{Tells, Told, Untold};
pub use writer_sink::WriterSink;
