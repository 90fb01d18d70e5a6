ghost use Rattle.std.specs.Prelude.{◌≡◌, None, Some, Err, OnOk};
ghost use Rattle.page_codec.specs.Reading.{page_read};
ghost use Rattle.exchange_law.specs.Pages.{is_last, damage};
ghost use Rattle.solo_procs.specs.Hands.{page_behind, renewed};

use page_codec::{BadPage, PageItems, Unpacker};
use solo_base::{Cause, Page};
use std::marker::Model;

/// Streams of pages, one behind the other: behind a last page a new one begins. Contracts see the place
/// that the next page has in its stream, modulo 65,536.
#[derive(Drop)]
pub struct PageStreams {
    unpacker: Unpacker,
}

impl Model for PageStreams {
    ghost use Rattle.std.specs.Prelude.{◌≡◌, ℕ, false};

    ghost Value = { ℕ };

    ghost view = { λ streams. streams.unpacker.place };

    ghost invariant = { λ streams. streams.unpacker.ended ≡ false };
}

impl PageStreams {
    /// The streams before their first page.
    pub fn new() -> PageStreams
        ensures { result ≡ 0 }
    {
        PageStreams {
            unpacker: Unpacker::new(),
        }
    }

    /// The items of the next page. One that isn't the next is refused.
    pub fn take(&mut self, page: &Page) -> Result<PageItems, BadPage>
        ensures read { result ≡ page_read self.old (is_last page.now) page.now }
        ensures place { OnOk result (self.new ≡ page_behind (is_last page.now) self.old) }
    {
        let last = is_last(page);
        match self.unpacker.take(page, last) {
            Ok(items) => {
                renew(&mut self.unpacker, last);
                Ok(items)
            }
            Err(bad) => Err(bad),
        }
    }
}

/// Behind a last page a new stream begins.
fn renew(unpacker: &mut Unpacker, last: bool)
    ensures { unpacker.new ≡ renewed last unpacker.old }
{
    if last {
        *unpacker = Unpacker::new();
    }
}

/// Whether a page is the last of its stream.
pub fn is_last(page: &Page) -> bool
    ensures { result ≡ is_last page.now }
{
    page.last()
}

/// The cause where a page isn't the next.
pub fn damaged(bad: BadPage) -> Cause
    ensures { damage (Err bad) ≡ Some result }
{
    Cause::Damaged {
        expected: bad.expected,
        found: bad.found,
        at: bad.at,
    }
}
