//! What stands above the files of an area: an area without a file, texts, code files, and the lines of the
//! catalogue.
#![tactic(auto)]

mod code_files;
mod contents;
mod fault;
mod formatting;
mod lengths;
mod listing;
mod loading;
mod migrating;
mod newer;
mod parts;
mod storing;
mod texts;

pub use code_files::{load_code, store_code};
pub use contents::bytes_of;
pub use disk_contents::Loaded;
pub use fault::{DiskFault, SystemFault};
pub use formatting::format;
pub use listing::list;
pub use loading::{LoadFault, load_job};
pub use migrating::{MigrateFault, Migrated, migrate};
pub use storing::store;
pub use texts::{is_text, store_text, text_of};
