ghost use Rattle.std.specs.Prelude.{◌≡◌, ◌+◌, ◌<◌, ◌≤◌, ℕ, List, [], ◌∷◌, ◌++◌, length, take, drop, IfSome, OnSome, IfNone};
ghost use Rattle.solo_base.specs.Card.{cards};
ghost use Rattle.solo_devices.specs.CardUnit.{IsPartial};
ghost use Rattle.solo_devices.specs.declared.pending.TheConstants.{PENDING_LENGTH};

use crate::judge::judge;
use arrayvec::ArrayVec;
use solo_base::{Item, first_place};
use std::marker::Model;

/// How many bytes a unit takes at most in one call of its source.
pub const PIECE_LENGTH: usize = 512;

/// How many bytes of a line decide that it is spoiled, whatever comes behind them: one more than
/// 80 columns and a carriage return.
pub const KEPT_LENGTH: usize = 82;

/// Room for what is kept of a line, and a piece behind it.
pub const PENDING_LENGTH: usize = 594;

/// Bytes that were taken from a source and not yet given as cards.
#[derive(Debug, Drop)]
pub struct Pending {
    bytes: ArrayVec<u8, PENDING_LENGTH>,
    start: usize,
}

impl Model for Pending {
    ghost Value = { List ℕ };

    ghost view = { λ pending. drop pending.start pending.bytes.items };

    ghost invariant = { λ pending. (pending.start ≤ length pending.bytes.items) × (length pending.bytes.items ≤ PENDING_LENGTH) };
}

impl Pending {
    pub fn new() -> Pending
        ensures { result ≡ [] }
    {
        Pending {
            bytes: ArrayVec::new(),
            start: 0,
        }
    }

    /// The bytes.
    pub fn bytes(&self) -> &[u8]
        ensures { result.now ≡ self.now }
    {
        &self.bytes.as_slice()[self.start..]
    }

    /// Drops the first bytes.
    pub fn skip(&mut self, count: usize)
        requires { count ≤ length self.old }
        ensures { self.new ≡ drop count self.old }
    {
        self.start += count;
    }

    /// What is kept of a line without its end, with more bytes behind it.
    pub fn with_more(kept: &[u8], more: &[u8]) -> Pending
        requires kept { length kept.now ≤ KEPT_LENGTH }
        requires more { length more.now ≤ PIECE_LENGTH }
        ensures { result ≡ kept.now ++ more.now }
    {
        let mut bytes = ArrayVec::new();
        let _ = bytes.try_extend_from_slice(kept);
        let _ = bytes.try_extend_from_slice(more);
        Pending { bytes, start: 0 }
    }

    /// Takes the first line out, where it is whole, and judges it.
    pub fn next_line(&mut self) -> Option<Item>
        ensures item { IfSome result (λ item. (more : List ℕ) → cards (self.old ++ more) ≡ item ∷ cards (self.new ++ more)) }
        ensures shorter { OnSome result (length self.new < length self.old) }
        ensures partial { IfNone result (IsPartial self.old) }
        ensures same { IfNone result (self.new ≡ self.old) }
    {
        let (item, end) = first_line(self.bytes())?;
        self.skip(end);
        Some(item)
    }

    /// Takes out the last line, which has no end, where there are bytes, and judges it.
    pub fn last_line(&mut self) -> Option<Item>
        requires { IsPartial self.old }
        ensures item { IfSome result (λ item. cards self.old ≡ item ∷ []) }
        ensures taken { self.new ≡ [] }
        ensures shorter { OnSome result (0 < length self.old) }
        ensures none { IfNone result (self.old ≡ []) }
    {
        let line = self.bytes();
        if line.is_empty() {
            return None;
        }
        let item = judge(line);
        let count = line.len();
        self.skip(count);
        Some(item)
    }
}

/// The first line of the bytes, judged, and where the next begins.
fn first_line(bytes: &[u8]) -> Option<(Item, usize)>
    ensures item { IfSome result (λ found. (more : List ℕ) → cards (bytes.now ++ more) ≡ found.0 ∷ cards (drop found.1 bytes.now ++ more)) }
    ensures within { IfSome result (λ found. (0 < found.1) × (found.1 ≤ length bytes.now)) }
    ensures partial { IfNone result (IsPartial bytes.now) }
{
    let end = first_place(bytes, b'\n');
    if end == bytes.len() {
        return None;
    }
    Some((judge(&bytes[..end]), end + 1))
}
