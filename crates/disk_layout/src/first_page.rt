ghost use Rattle.std.specs.Prelude.{◌≡◌, ◌↔◌, IsTrue};
ghost use Rattle.disk_layout.specs.Format.{label};
ghost use Rattle.disk_layout.specs.Format1.{label1};

use disk_pages::set_name_bytes;
use solo_base::Page;

/// The first page of a Solo disk: `SOLODISK`, the numbers 2 and 4,288, zeros.
pub fn label() -> Page
    ensures { result.0 ≡ label }
{
    let mut page = Page::zeros();
    set_name_bytes(&mut page, 0, *b"SOLODISK\x00\x02\x10\xc0");
    Page(*page.bytes())
}

/// Whether this page is the first of a Solo disk.
pub fn is_label(page: &Page) -> bool
    ensures { IsTrue result ↔ (page.now.0 ≡ label) }
{
    page.0 == label().0
}

/// The first page of a disk of format 1: `SOLODISK`, the numbers 1 and 4,288, zeros.
pub fn label1() -> Page
    ensures { result.0 ≡ label1 }
{
    let mut page = Page::zeros();
    set_name_bytes(&mut page, 0, *b"SOLODISK\x00\x01\x10\xc0");
    Page(*page.bytes())
}

/// Whether this page is the first of a disk of format 1.
pub fn is_label1(page: &Page) -> bool
    ensures { IsTrue result ↔ (page.now.0 ≡ label1) }
{
    page.0 == label1().0
}
