//! Calls on an area below its files: for who makes an area, judges one or changes its format.

pub use crate::append::{save_map, take};
pub use crate::mount::judge;
pub use crate::older::judge_older;
pub use crate::transfer::{read, write};
