ghost use Rattle.std.specs.Prelude.{◌≡◌, true, false, Some};
ghost use Rattle.page_codec.specs.Form.{page_of};
ghost use Rattle.page_codec.specs.Reading.{page_read};
ghost use Rattle.page_codec.specs.Stream.{at_the_first, awaited_after};

use page_codec::{BadPage, Packer, PageItems, Unpacker};
use solo_base::Page;
use std::marker::Model;
use std::mem;

/// The pages of a stream, of which none is taken behind the last.
#[derive(Drop)]
pub struct Pages {
    unpacker: Unpacker,
    ended: bool,
}

impl Model for Pages {
    ghost use Rattle.std.specs.Prelude.{◌≡◌};
    ghost use Rattle.page_codec.specs.Stream.{Awaited};

    ghost Value = { Awaited };

    ghost view = { λ pages. pages.unpacker };

    ghost invariant = { λ pages. pages.ended ≡ pages.unpacker.ended };
}

impl Pages {
    /// The stream before its first page.
    pub fn new() -> Pages
        ensures { result ≡ at_the_first }
    {
        Pages {
            unpacker: Unpacker::new(),
            ended: false,
        }
    }

    /// Whether the last page was taken.
    pub fn is_ended(&self) -> bool
        ensures { result ≡ self.now.ended }
    {
        self.ended
    }

    /// The items of the next page.
    pub fn take(&mut self, page: &Page, last: bool) -> Result<PageItems, BadPage>
        requires { self.old.ended ≡ false }
        ensures read { result ≡ page_read self.old.place last page.now }
        ensures awaited { self.new ≡ awaited_after self.old last result }
    {
        let items = self.unpacker.take(page, last)?;
        self.ended = last;
        Ok(items)
    }
}

/// The last page of a packer, into the caller's place.
#[inline(never)]
pub fn finish(packer: &mut Packer, due: &mut Option<Page>)
    ensures { due.new ≡ Some (page_of packer.old.place true packer.old.content) }
{
    let packer = mem::replace(packer, Packer::new());
    *due = Some(packer.finish());
}
