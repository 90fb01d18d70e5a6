//! The files of an area: a catalogue of names, each with its pages.
#![tactic(auto)]

mod append;
pub mod bare_area;
mod changes;
mod create;
mod delete;
mod fault;
mod file_area;
mod file_page;
mod judge_area;
mod mount;
mod older;
mod rename;
mod transfer;
mod write_entry;

pub use disk_layout::FileKind;
pub use fault::{FileFault, FileInfo};
pub use file_area::FileArea;
