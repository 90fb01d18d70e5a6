ghost use Rattle.std.specs.Prelude.{◌≡◌, ◌+◌, ◌<◌, ◌≤◌, ◌↔◌, ℕ, true, false, nat_lt, length, IsSome, IfSome, IfNone, OnSome};
ghost use Rattle.std.specs.FinSet as set;
ghost use Rattle.disk_pages.specs.Bits.{is_marked, EndsInZeros};
ghost use Rattle.disk_pages.specs.Pages.{Pages, IsLeastFree, IsReadFrom, IsBitMap, IsPage};

use crate::bits::{AREA_PAGES, is_marked, mark};
use solo_base::{PAGE_LENGTH, Page};
use std::marker::Model;

/// How many pages at the start of the area are no file's: the label, the catalogue and the bit map.
pub const FIRST_FILE_PAGE: u16 = 18;

/// Which pages of the file area are taken, as pages 16 and 17 of the area say it. The first 18 always are.
#[derive(Drop)]
pub struct PageMap {
    low: Page,
    high: Page,
    // No page below this one is free.
    least: u16,
    free: u16,
}

// Clauses see the taken pages.
impl Model for PageMap {
    ghost use Rattle.std.specs.Ordering.{nat_cmp};
    ghost use Rattle.std.specs.FinSet as set;
    ghost use Rattle.std.specs.Coded.{coded_ℕ};
    ghost use Rattle.disk_pages.specs.Pages.{marked_pages, IsKept};

    ghost Value = { set.FinSet nat_cmp };

    ghost coded = { set.code coded_ℕ };

    ghost view = { λ map. marked_pages map.low map.high };

    ghost invariant = { λ map. IsKept map.low map.high map.least map.free };
}

impl PageMap {
    /// The map of an area without a file: the first 18 pages are taken.
    pub fn fresh() -> PageMap
        ensures { (n : ℕ) → set.contains result n ≡ nat_lt n FIRST_FILE_PAGE }
    {
        let mut low = Page::zeros();
        let mut high = Page::zeros();
        for n in 0..FIRST_FILE_PAGE {
            mark(&mut low, &mut high, n, true);
        }
        PageMap {
            low,
            high,
            least: FIRST_FILE_PAGE,
            free: AREA_PAGES - FIRST_FILE_PAGE,
        }
    }

    /// The map that pages 16 and 17 of an area hold. Of pages that break the format it is the map of
    /// the taken pages that they name: the first 18 are taken whatever their bits say, and the bytes
    /// behind the bits say nothing. `to_pages` then gives other pages.
    pub fn of_pages(low: &Page, high: &Page) -> PageMap
        ensures { IsReadFrom low.now high.now result }
    {
        let mut map = PageMap::fresh();
        for n in FIRST_FILE_PAGE..AREA_PAGES {
            if is_marked(low, high, n) {
                map.take(n);
            }
        }
        map
    }

    /// Whether page n is taken.
    pub fn is_taken(&self, n: u16) -> bool
        requires { n < AREA_PAGES }
        ensures taken { result ≡ set.contains self.now n }
        ensures system { n < FIRST_FILE_PAGE → result ≡ true }
    {
        is_marked(&self.low, &self.high, n)
    }

    /// Takes the least free page, or answers `None` where all pages are taken.
    pub fn allocate(&mut self) -> Option<u16>
        ensures least { IfSome result (IsLeastFree self.old) }
        ensures file_page { IfSome result (λ n. FIRST_FILE_PAGE ≤ n) }
        ensures taken { IfSome result (λ n. self.new ≡ set.insert self.old n) }
        ensures some { IsSome result ↔ (set.len self.old < AREA_PAGES) }
        ensures all_taken { IfNone result ((n : ℕ) → n < AREA_PAGES → set.contains self.old n ≡ true) }
        ensures none { IfNone result (self.new ≡ self.old) }
    {
        if self.free == 0 {
            return None;
        }
        let n = first_unmarked(&self.low, &self.high, self.least)?;
        self.take(n);
        self.least = n + 1;
        Some(n)
    }

    /// Makes a taken page free again.
    pub fn give_back(&mut self, n: u16)
        requires file_page { FIRST_FILE_PAGE ≤ n }
        requires within { n < AREA_PAGES }
        requires taken { set.contains self.old n ≡ true }
        ensures { self.new ≡ set.remove self.old n }
    {
        mark(&mut self.low, &mut self.high, n, false);
        self.free += 1;
        self.least = self.least.min(n);
    }

    /// How many pages are free.
    pub fn free(&self) -> u16
        ensures { result + set.len self.now ≡ AREA_PAGES }
    {
        self.free
    }

    /// Pages 16 and 17 of an area with this map.
    pub fn to_pages(&self) -> (Page, Page)
        ensures bits { (n : ℕ) → n < AREA_PAGES → is_marked result.0 result.1 n ≡ set.contains self.now n }
        ensures format { IsBitMap result.0 result.1 }
        ensures pages { IsPage result.0 × IsPage result.1 }

        // Reading these pages gives this map, and writing a map gives the pages that it was read from.
        ensures read_again { (taken : Pages) → IsReadFrom result.0 result.1 taken → taken ≡ self.now }
        ensures written_again { (low high : Page) → IsPage low → IsPage high → IsBitMap low high
            → IsReadFrom low high self.now → (result.0 ≡ low) × (result.1 ≡ high) }
    {
        (page_of(&self.low.0), page_of(&self.high.0))
    }

    // Takes a free page.
    fn take(&mut self, n: u16)
        requires within { n < AREA_PAGES }
        requires free { set.contains self.old n ≡ false }
        ensures taken { self.new ≡ set.insert self.old n }
    {
        mark(&mut self.low, &mut self.high, n, true);
        self.free -= 1;
    }
}

// The page of these bytes.
fn page_of(bytes: &[u8]) -> Page
    requires { length bytes.now ≡ PAGE_LENGTH }
    ensures bytes { result.0 ≡ bytes.now }
    ensures page { IsPage result }
{
    let mut page = Page::zeros();
    page.0.copy_from_slice(bytes);
    page
}

// The least page from this one on whose bit is 0.
fn first_unmarked(low: &Page, high: &Page, from: u16) -> Option<u16>
    ensures found { IfSome result (λ n. (from ≤ n) × (n < AREA_PAGES) × (is_marked low.now high.now n ≡ false)) }
    ensures least { IfSome result (λ n. (m : ℕ) → from ≤ m → m < n → is_marked low.now high.now m ≡ true) }
    ensures none { IfNone result ((m : ℕ) → from ≤ m → m < AREA_PAGES → is_marked low.now high.now m ≡ true) }
{
    for n in from..AREA_PAGES {
        if !is_marked(low, high, n) {
            return Some(n);
        }
    }
    None
}
