//! The pages of the file area that say which pages are taken, and the fields of its other pages.
#![tactic(auto)]

mod bits;
mod field;
mod page_map;

pub use bits::{AREA_PAGES, is_marked};
pub use field::{name_bytes, number, set_name_bytes, set_number};
pub use page_map::{FIRST_FILE_PAGE, PageMap};
