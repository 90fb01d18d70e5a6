ghost use Rattle.std.specs.Prelude.{◌≡◌, ◌≢◌, ◌↔◌, ◌+◌, ◌<◌, IsTrue, length, slice_index};
ghost use Rattle.solo_base.specs.PageBytes.{number_at, zero_page};

/// How many bytes a page has.
pub const PAGE_LENGTH: usize = 512;

/// A page: what a disk reads and writes at once, and what a page buffer hands over.
#[derive(Clone, Copy, Debug)]
pub struct Page(pub [u8; PAGE_LENGTH]);

impl Page {
    /// A page of zeros.
    pub fn zeros() -> Page
        ensures { result.0 ≡ zero_page }
    {
        Page([0; PAGE_LENGTH])
    }

    /// Its bytes.
    pub fn bytes(&self) -> &[u8; PAGE_LENGTH]
        ensures bytes { result.now ≡ self.now.0 }
        ensures length { length self.now.0 ≡ PAGE_LENGTH }
    {
        &self.0
    }

    /// Whether its byte 2 marks it as the last page of its stream.
    pub fn last(&self) -> bool
        ensures { IsTrue result ↔ (slice_index self.now.0 2 ≢ 0) }
    {
        self.0[2] != 0
    }
}

/// The number in the bytes at a place and the next, high byte first.
pub fn number_at(bytes: &[u8], at: usize) -> u16
    requires { at + 1 < length bytes.now }
    ensures { result ≡ number_at bytes.now at }
{
    u16::from_be_bytes([bytes[at], bytes[at + 1]])
}
