//! Takes all 4,270 pages of a map in a row, a thousand times, and prints the sum of their numbers.
use crate::fault::Fault;
use disk_pages::{AREA_PAGES, FIRST_FILE_PAGE, PageMap};

const ROUNDS: u32 = 1000;

pub fn run(rt: &impl Print) -> Result<(), Fault> {
    let mut sum = 0u64;
    for _ in 0..ROUNDS {
        sum = sum.saturating_add(fill());
    }
    Ok(println!(rt; "{sum}")?)
}

/// The sum of the numbers of the pages that a fresh map gives until it is full.
fn fill() -> u64 {
    let mut map = PageMap::fresh();
    let mut sum = 0u64;
    for _ in FIRST_FILE_PAGE..AREA_PAGES {
        if let Some(page) = map.allocate() {
            sum = sum.saturating_add(u64::from(page));
        }
    }
    sum
}
