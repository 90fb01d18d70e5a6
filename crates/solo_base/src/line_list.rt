ghost use Rattle.std.specs.Prelude.{◌≡◌, ◌==◌, ◌+◌, ◌^◌, ◌<◌, ◌≤◌, ℕ, List, [], ◌∷◌, ◌++◌, length, slice_get, Some, IfOk, OnOk, OnErr};
ghost use Rattle.solo_base.specs.LineList.{pieces, start_at, IsCutTo, IsCutIntoLines};

use crate::{LINE_LENGTH, Line, NoMemory};
use std::alloc::Global;
use std::marker::Model;

/// A list of lines, kept as one text. It takes memory for the text and a number for each line, and
/// has room for 4,294,967,295 bytes of text.
#[derive(Debug, Drop)]
pub struct LineList {
    text: Vec<u8>,
    ends: Vec<u32>,
}

impl Model for LineList {
    ghost Value = { List (List ℕ) };

    ghost view = { λ list. pieces list.text.items 0 list.ends.items };

    ghost invariant = { λ list. IsCutIntoLines list.text.items list.ends.items };
}

impl LineList {
    /// The list of no lines, which takes no memory.
    pub fn new(alloc: Global) -> LineList
        ensures { result ≡ [] }
    {
        LineList {
            text: Vec::new(alloc),
            ends: Vec::new(alloc),
        }
    }

    /// How many lines there are.
    pub fn len(&self) -> usize
        ensures { result ≡ length self.now }
    {
        self.ends.as_slice().len()
    }

    /// Whether there are no lines.
    pub fn is_empty(&self) -> bool
        ensures { result ≡ (length self.now == 0) }
    {
        self.len() == 0
    }

    /// Adds a line at the end. A refusal leaves the list as it was.
    pub fn push(&mut self, line: &Line) -> Result<(), NoMemory>
        ensures ok { OnOk result (self.new ≡ self.old ++ line.now ∷ []) }
        ensures err { OnErr result (self.new ≡ self.old) }
    {
        let bytes = line.bytes();
        let end = end_of(self.text.as_slice(), bytes)?;
        self.ends.reserve(1)?;
        self.text.extend_from_slice(bytes)?;
        self.ends.push_reserved(end);
        Ok(())
    }

    /// The line at a place, counted from 0.
    pub fn get(&self, place: usize) -> Line
        requires { place < length self.now }
        ensures { slice_get self.now place ≡ Some result }
    {
        let mut line = Line::new();
        line.append(piece(&self.text, &self.ends, place));
        line
    }
}

/// How long the text is with these bytes behind it.
fn end_of(text: &[u8], bytes: &[u8]) -> Result<u32, NoMemory>
    requires { length bytes.now ≤ LINE_LENGTH }
    ensures end { IfOk result (λ end. end ≡ length text.now + length bytes.now) }
    ensures fits { IfOk result (λ end. end < 2 ^ 32) }
{
    u32::try_from(text.len() + bytes.len()).map_err(|_| NoMemory)
}

/// The part of the text that ends at the end of this place.
fn piece<'a>(text: &'a [u8], ends: &[u32], place: usize) -> &'a [u8]
    requires place { place < length ends.now }
    requires cut { IsCutTo (length text.now) 0 ends.now }
    ensures { slice_get (pieces text.now 0 ends.now) place ≡ Some result.now }
{
    let start = start_of(ends, place) as usize;
    let end = ends[place] as usize;
    &text[start..end]
}

/// Where that part begins.
fn start_of(ends: &[u32], place: usize) -> u32
    requires { place < length ends.now }
    ensures { result ≡ start_at 0 ends.now place }
{
    if place == 0 { 0 } else { ends[place - 1] }
}
