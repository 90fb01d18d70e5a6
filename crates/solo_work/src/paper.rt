ghost use Rattle.std.specs.Prelude.{◌≡◌, ℕ, List, []};
ghost use Rattle.exchange_law.specs.Pages.{last_page};
ghost use Rattle.solo_work.specs.Paper.{IsHand, AddsLine};

use page_codec::Packer;
use solo_base::{Item, Line, Page};

/// The page in hand of a command, and whether it has printed a line.
#[derive(Drop)]
pub struct Paper {
    packer: Packer,
    printed: bool,
}

impl Paper {
    /// Of a command that has printed nothing.
    pub fn new() -> Paper
        ensures { IsHand result 0 [] }
    {
        Paper {
            packer: Packer::new(),
            printed: false,
        }
    }

    /// Prints a line. It gives the page in hand where that has no room for it, and the line begins the next.
    pub fn print(&mut self, line: &Line) -> Option<Page>
        ensures { (pages : ℕ) (hand : List (List ℕ)) → IsHand self.old pages hand
            → AddsLine pages hand line.now result self.new }
    {
        self.printed = true;
        // that it is a line is known where it is read
        let _ = line.bytes();
        self.packer.push(&Item::Line(line.copy()))
    }

    /// The last page, where a line was printed.
    pub fn last(self) -> Option<Page>
        ensures { (pages : ℕ) (hand : List (List ℕ)) → IsHand self pages hand
            → result ≡ last_page pages hand }
    {
        let Paper { packer, printed } = self;
        if !printed {
            return None;
        }
        Some(packer.finish())
    }
}
