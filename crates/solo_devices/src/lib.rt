//! The devices of Solo and of the Job Stream System: what bytes are read from, what they are written
//! to, the pages of a disk, the same in memory, the units that read cards and print lines, and the
//! typewriter.
#![tactic(auto)]

mod area;
mod blank_area;
mod card_read;
mod card_unit;
mod failing_calls;
mod hurt_area;
mod judge;
mod mem_area;
mod mem_sink;
mod mem_source;
mod pending;
mod printer_unit;
mod reader;
mod sink;
mod source;
mod sure_area;
mod sure_sink;
mod sure_source;
mod typewriter;

pub use area::{Area, Moved};
pub use blank_area::BlankArea;
pub use card_read::CardRead;
pub use card_unit::CardUnit;
pub use hurt_area::HurtArea;
pub use mem_area::MemArea;
pub use mem_sink::MemSink;
pub use mem_source::MemSource;
pub use printer_unit::{PrintFault, PrinterUnit};
pub use reader::BYTE_LIMIT;
pub use sink::{Gave, Sink};
pub use source::{Source, Took};
pub use sure_area::SureArea;
pub use sure_sink::SureSink;
pub use sure_source::SureSource;
pub use typewriter::Typewriter;
