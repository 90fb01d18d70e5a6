use crate::fault::Fault;
use std::fs::{self, Files};

/// The memory that this process takes now, in pages of 4,096 bytes.
pub fn pages_taken(rt: &(impl AllocGlobal + Files)) -> Result<u64, Fault> {
    let text = fs::read_to_string(rt, "/proc/self/statm")?;
    let pages = text.as_str().split_whitespace().nth(1);
    let pages = pages.ok_or(Fault::Unexpected("no number of pages"))?;
    pages
        .parse()
        .ok()
        .ok_or(Fault::Unexpected("no number of pages"))
}
