ghost use Rattle.std.specs.Prelude.{◌≡◌, None};
ghost use Rattle.solo_base.specs.PageBytes.{zero_page};

use crate::{Area, Moved};
use solo_base::Page;

/// An area that reads zero pages, whatever was written. It tells nothing of its pages, and never fails.
#[derive(Clone, Copy, Debug)]
pub struct BlankArea {
    pages: u16,
}

impl BlankArea {
    /// An area of so many pages.
    pub fn new(pages: u16) -> BlankArea
        ensures untold { ⟦<BlankArea as Area>⟧.pages result ≡ None }
        ensures size { ⟦<BlankArea as Area>⟧.size result ≡ pages }
    {
        BlankArea { pages }
    }
}

impl Area for BlankArea {
    ghost pages = { λ _. None };

    ghost size = { λ area. area.pages };

    ghost faults = { λ _. 0 };

    fn size(&self) -> u16 {
        self.pages
    }

    fn read(&mut self, _n: u16, page: &mut Page) -> Moved
        ensures done { result ≡ Moved.Done }
        ensures zeros { page.new.0 ≡ zero_page }
        ensures same { self.new ≡ self.old }
    {
        *page = Page::zeros();
        Moved::Done
    }

    fn write(&mut self, _n: u16, _page: &Page) -> Moved
        ensures done { result ≡ Moved.Done }
        ensures same { self.new ≡ self.old }
    {
        Moved::Done
    }
}
