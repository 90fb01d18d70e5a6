ghost use Rattle.std.specs.Prelude.{◌≡◌, ◌++◌, ◌∷◌, ℕ, List, [], None, OnOk};
ghost use Rattle.solo_base.specs.declared.item.Item.{Item as ItemOf};
ghost use Rattle.disk_contents.specs.declared.loading.Loaded.{Loaded as LoadedOf};
ghost use Rattle.batch_job.specs.Loads.{first_of};
ghost use Rattle.batch_job.specs.JobStream.{new_stream, fed, with_load, StandsFor, IsSpent, Packs};

use crate::lines_ahead::{End, LinesAhead};
use disk_system::Loaded;
use page_codec::{Packer, PageItems};
use solo_base::{Ident, NoMemory, Page};
use std::alloc::Global;
use std::marker::Model;

/// The lines of a stream of items, in pages: each item is used as it comes, and a page goes out as it
/// fills. How little it keeps of what was used is measured (`bench/jobs`), and no clause says it.
#[derive(Debug, Drop)]
pub struct JobStream {
    ahead: LinesAhead,
}

impl Model for JobStream {
    ghost use Rattle.batch_job.specs.JobStream.{Stream, stream_of};

    ghost Value = { Stream };

    ghost view = { λ stream. stream_of stream.ahead };
}

impl JobStream {
    /// The stream before its first page.
    pub fn new(alloc: Global) -> JobStream
        ensures new { result ≡ new_stream }
        ensures stands { StandsFor result [] [] [] }
        ensures spent { IsSpent result }
    {
        JobStream {
            ahead: LinesAhead::new(alloc),
        }
    }

    /// Takes the items of the next page, once all lines of those before are pushed. None follows the last.
    pub fn feed(&mut self, items: PageItems) -> Result<(), NoMemory>
        ensures fed { OnOk result (self.new ≡ fed self.old items) }
        ensures stands { OnOk result ((before : List ItemOf) (loads : List LoadedOf) (pushed : List (List ℕ))
            → IsSpent self.old → self.old.end ≡ End.NotYet → StandsFor self.old before loads pushed
            → StandsFor self.new (before ++ items.items) loads pushed) }
    {
        self.ahead.feed(items)
    }

    /// The first file of the jobs that were fed whose load wasn't given yet. No line is made before it is.
    pub fn wants(&self) -> Option<Ident>
        ensures first { result ≡ first_of self.now.wanted }
        ensures none { result ≡ None → self.now.wanted ≡ [] }
    {
        self.ahead.loads.wants()
    }

    /// Gives what was found of that file.
    pub fn load(&mut self, loaded: Loaded)
        ensures loaded { (file : List ℕ) (later : List (List ℕ)) → self.old.wanted ≡ file ∷ later
            → self.new ≡ with_load self.old loaded }
        ensures stands { (file : List ℕ) (later : List (List ℕ)) → self.old.wanted ≡ file ∷ later
            → (items : List ItemOf) (loads : List LoadedOf) (pushed : List (List ℕ))
            → StandsFor self.old items loads pushed → StandsFor self.new items (loads ++ loaded ∷ []) pushed }
    {
        self.ahead.loads.give(loaded);
    }

    /// Makes and pushes the next lines until a push gives a page, and writes it into the caller's place. Where
    /// there is none then, all lines of the items so far are pushed. No file is wanted.
    pub fn pack(&mut self, packer: &mut Packer, due: &mut Option<Page>) -> Result<(), NoMemory>
        requires { self.old.wanted ≡ [] }
        ensures packs { OnOk result (Packs self.old packer.old due.new self.new packer.new) }
    {
        pack_lines(&mut self.ahead, packer, due)
    }
}

ghost use Rattle.batch_job.specs.declared.lines_ahead.End.TheVariants as End;
ghost use Rattle.page_codec.specs.Packing.{PageInHand};
ghost use Rattle.batch_job.specs.JobStream.{Stream, stream_of, Pushing, PacksMade, HasNoLine, turns_left};

/// Makes and pushes lines until a push gives a page, which is then due. What was due before is dropped.
fn pack_lines(
    ahead: &mut LinesAhead,
    packer: &mut Packer,
    due: &mut Option<Page>,
) -> Result<(), NoMemory>
    requires { (stream_of ahead.old).wanted ≡ [] }
    ensures { OnOk result (Packs (stream_of ahead.old) packer.old due.new (stream_of ahead.new) packer.new) }
{
    clear(due);
    'packing: loop {
        push_made(ahead, packer, due);
        if due.is_some() {
            return Ok(());
        }
        if !ahead.make()? {
            return Ok(());
        }
    }
}

/// Makes it no page.
// What is not there is not written: a page is copied whole where none is put in its place.
fn clear(due: &mut Option<Page>)
    ensures { due.new ≡ None }
{
    if due.is_some() {
        *due = None;
    }
}

/// Pushes the lines that are made until a push gives a page, which is then due. None was due before.
fn push_made(ahead: &mut LinesAhead, packer: &mut Packer, due: &mut Option<Page>)
    requires { due.old ≡ None }
    ensures packs { (first : Stream) (hand : PageInHand)
        → Pushing first hand (stream_of ahead.old) packer.old
        → PacksMade first hand due.new (stream_of ahead.new) packer.new }
    ensures none { due.new ≡ None → HasNoLine (stream_of ahead.new) }
    ensures turns { turns_left (stream_of ahead.new) ≡ turns_left (stream_of ahead.old) }
    ensures wanted { (stream_of ahead.new).wanted ≡ (stream_of ahead.old).wanted }
{
    'pushing: while let Some(line) = ahead.next() {
        packer.push_line(&line, due);
        if due.is_some() {
            return;
        }
    }
}
