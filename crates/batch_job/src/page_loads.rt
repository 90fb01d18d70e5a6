ghost use Rattle.std.specs.Prelude.{◌≡◌, ◌++◌, ◌<◌, ◌∷◌, ℕ, List, [], None, Some, IfOk, OnSome, length, option_to_list};
ghost use Rattle.deck_format.specs.Jobs.{opener_of};
ghost use Rattle.disk_contents.specs.declared.loading.Loaded.{Loaded as LoadedOf};
ghost use Rattle.batch_job.specs.Loads.{first_of, file_named, files_named, load_for};

use deck_format::{Opener, control_in, opener_in};
use disk_system::Loaded;
use page_codec::PageItems;
use solo_base::{Ident, Item, NoMemory};
use std::alloc::Global;
use std::collections::VecDeque;
use std::marker::Model;

/// What the files were loaded as that the items of a page name, and those that are still wanted, both in
/// order. It has room for all of them from the start.
#[derive(Debug, Drop)]
pub struct PageLoads {
    given: VecDeque<Loaded>,
    wanted: VecDeque<Ident>,
}

impl Model for PageLoads {
    ghost use Rattle.std.specs.Prelude.{◌+◌, ◌≤◌};
    ghost use Rattle.std.specs.VecDeque.{deque_len, deque_capacity};
    ghost use Rattle.batch_job.specs.Loads.{Loading};

    ghost Value = { Loading };

    ghost view = { λ loads. record { given = loads.given.items; wanted = loads.wanted.items } };

    ghost invariant = { λ loads. deque_len loads.given + deque_len loads.wanted
        ≤ deque_capacity loads.given };
}

impl PageLoads {
    /// No file is wanted.
    pub fn none(alloc: Global) -> PageLoads
        ensures given { result.given ≡ [] }
        ensures wanted { result.wanted ≡ [] }
    {
        PageLoads {
            given: VecDeque::new(alloc),
            wanted: VecDeque::new(alloc),
        }
    }

    /// The files that these items name are wanted.
    pub fn of(alloc: Global, items: PageItems) -> Result<PageLoads, NoMemory>
        ensures given { IfOk result (λ loads. loads.given ≡ []) }
        ensures wanted { IfOk result (λ loads. loads.wanted ≡ files_named items.items) }
    {
        let wanted = files_named(alloc, items)?;
        let given = VecDeque::with_capacity(alloc, wanted.len())?;
        Ok(PageLoads { given, wanted })
    }

    /// The file that is wanted first.
    pub fn wants(&self) -> Option<Ident>
        ensures { result ≡ first_of self.now.wanted }
    {
        self.wanted.front().copied()
    }

    /// Gives what was found of that file.
    pub fn give(&mut self, loaded: Loaded)
        ensures { (file : List ℕ) (later : List (List ℕ)) → self.old.wanted ≡ file ∷ later
            → (self.new.given ≡ self.old.given ++ loaded ∷ []) × (self.new.wanted ≡ later) }
    {
        if self.wanted.pop_front().is_some() {
            self.given.push_back_reserved(loaded);
        }
    }

    /// Takes what the file of this opener was loaded as. Only one of a file needs it; without it there is no
    /// file.
    pub fn take_for(&mut self, opener: &Opener) -> Loaded
        ensures load { (load : LoadedOf) (left : List LoadedOf)
            → load_for opener.now self.old.given ≡ Some (load, left)
            → (result ≡ load) × (self.new.given ≡ left) }
        ensures wanted { self.new.wanted ≡ self.old.wanted }
    {
        match opener {
            Opener::Run { name: _, file: _ } => match self.given.pop_front() {
                Some(loaded) => loaded,
                None => Loaded::NoFile,
            },
            _ => Loaded::NoFile,
        }
    }
}

/// The files that these items name, in order.
fn files_named(alloc: Global, mut items: PageItems) -> Result<VecDeque<Ident>, NoMemory>
    ensures { IfOk result (λ files. files.items ≡ files_named items.items) }
{
    let mut files = VecDeque::new(alloc);
    'naming: while let Some(item) = next_marked(&mut items) {
        if let Some(file) = file_in(&item) {
            files.push_back(file)?;
        }
    }
    Ok(files)
}

/// The next line that begins with `#`: what stands before it names no file.
fn next_marked(items: &mut PageItems) -> Option<Item>
    ensures named { files_named items.old.items ≡ files_named (option_to_list result ++ items.new.items) }
    ensures none { result ≡ None → items.new.items ≡ [] }
    ensures fewer { OnSome result (length items.new.items < length items.old.items) }
{
    'passing: while !items.begins_with(b'#') {
        if !items.pass() {
            return None;
        }
    }
    items.next()
}

/// The file that an item names, if it does.
fn file_in(item: &Item) -> Option<Ident>
    ensures { option_to_list result ≡ file_named (opener_of item.now) }
{
    let control = control_in(item);
    let Some(opener) = opener_in(&control) else {
        return None;
    };
    file_of(opener)
}

/// The file that an opener names, if it does.
fn file_of(opener: Opener) -> Option<Ident>
    ensures { option_to_list result ≡ file_named (Some opener) }
{
    match opener {
        Opener::Run { name: _, file } => Some(file),
        _ => None,
    }
}
