ghost use Rattle.std.specs.Prelude.{◌≡◌, ℕ, ◌+◌, ◌-◌, ◌≤◌, ◌==◌, ◌⊎◌, List, [], Some, Ok, Err, IsTrue, length, slice_index_or, IfErr, IfOk, IsOk, OnOk, MatchResult, true};
ghost use Rattle.std.specs.Option.{option_copied};
ghost use Rattle.std.specs.FinMap as fin;
ghost use Rattle.disk_layout.specs.Disk.{number_of};
ghost use Rattle.disk_layout.specs.Format.{IsAddress, IsSoloDisk};
ghost use Rattle.disk_layout.specs.Names.{IsNameAfter};
ghost use Rattle.disk_layout.specs.Held.{held_by_all, pages_of_files};
ghost use Rattle.disk_layout.specs.Files.{File, files, free_count, name_count, kind_of};
ghost use Rattle.disk_files.specs.declared.fault.FileFault.TheVariants.{NoFile, PageRange, DiskFault};
ghost use Rattle.disk_files.specs.Answers.{FileTable, RefusesMount, MayRefuseMount, Answers, after_reading, FaultsOnly, lookup_answer, read_answer};

use crate::file_page::read_file_page;
use crate::mount::judge;
use crate::transfer::{read, stays_sound};
use crate::{FileFault, FileInfo};
use disk_layout::{Entry, FileKind, count_names, place_after, place_of};
use disk_pages::{AREA_PAGES, PageMap, number};
use solo_base::{Ident, Page, trim_end};
use solo_devices::Area;
use std::alloc::Global;
use std::marker::Model;

/// The entry of no file.
const BLANK: Entry = Entry {
    name: [0; 12],
    kind: 0,
    address: 0,
    protection: 0,
    key: 0,
    searches: 0,
};

/// The files of an area.
#[derive(Drop)]
pub struct FileArea<A: Area> {
    pub(crate) area: A,
    pub(crate) entries: [Entry; 240],
    pub(crate) map: PageMap,
    pub(crate) sound: bool,
}

impl<A: Area> Model for FileArea<A> {
    ghost use Rattle.std.specs.Coded.{codes};
    ghost use Rattle.disk_files.specs.Answers.{FileTable, pages_code, IsFileArea};

    ghost Value = { FileTable A };

    ghost coded = { Prim.hlevel (codes, A.code, pages_code) };

    ghost view = { λ f. record { area = f.area; entries = f.entries; taken = f.map; sound = f.sound } };

    ghost invariant = { λ f. IsFileArea (A.pages f.area) (A.size f.area) f.entries f.map f.sound };
}

impl<A: Area> FileArea<A> {
    /// Reads the catalogue and the taken pages of an area, and judges all of its pages. Where a page breaks
    /// the format the least such page is told.
    pub fn mount(alloc: Global, mut area: A) -> Result<FileArea<A>, (A, FileFault)>
        requires { A.size area ≡ AREA_PAGES }
        ensures judged { (pages : List (List ℕ)) → A.pages area ≡ Some pages
            → MatchResult result (λ _. IsSoloDisk pages) (λ back. RefusesMount pages back.1) }
        ensures refusals { IfErr result (λ back. MayRefuseMount back.1) }
        ensures sound { IfOk result (λ files. files.sound ≡ true) }
        ensures left { MatchResult result (λ files. A.pages files.area ≡ A.pages area) (λ back. A.pages back.0
            ≡ A.pages area) }
        ensures size { MatchResult result (λ files. A.size files.area ≡ A.size area) (λ back. A.size back.0
            ≡ A.size area) }
        ensures cause { MatchResult result (λ files. FaultsOnly {T =
            Unit {0}} (A.faults area) (A.faults files.area) (Ok tt))
            (λ back. FaultsOnly {T = Unit {0}} (A.faults area) (A.faults back.0) (Err back.1)) }
    {
        let mut entries = [BLANK; 240];
        match judge(alloc, &mut area, &mut entries) {
            Ok(map) => Ok(FileArea {
                area,
                entries,
                map,
                sound: true,
            }),
            Err(fault) => Err((area, fault)),
        }
    }

    /// Whether no call failed since the mount: what is kept in memory is then what the area has, and its
    /// pages are a Solo disk.
    pub fn sound(&self) -> bool
        ensures value { result ≡ self.now.sound }
        ensures solo { IsTrue result → (pages : List (List ℕ)) → A.pages self.now.area ≡ Some pages
            → IsSoloDisk pages }
    {
        self.sound
    }

    /// Gives the area back.
    pub fn into_inner(self) -> A
        ensures area { result ≡ self.area }
        ensures size { A.size result ≡ AREA_PAGES }
    {
        self.area
    }

    /// How many names the catalogue has.
    pub fn names(&self) -> u16
        requires { IsTrue self.now.sound }
        ensures count { (pages : List (List ℕ)) → A.pages self.now.area ≡ Some pages → result ≡ name_count pages }
        ensures few { result ≤ 240 }
    {
        count_names(&self.entries)
    }

    /// How many pages are free.
    pub fn free_pages(&self) -> u16
        requires { IsTrue self.now.sound }
        ensures count { (pages : List (List ℕ)) → A.pages self.now.area ≡ Some pages
            → result ≡ free_count pages }
        ensures files { (pages : List (List ℕ)) → A.pages self.now.area ≡ Some pages
            → result + held_by_all (files pages) ≡ pages_of_files }
        ensures few { result ≤ AREA_PAGES }
    {
        self.map.free()
    }
}

impl<A: Area> FileArea<A> {
    /// Kind, protection and length of a file.
    pub fn lookup(&mut self, name: &Ident) -> Result<FileInfo, FileFault>
        requires { IsTrue self.old.sound }
        ensures answer { (pages : List (List ℕ)) → A.pages self.old.area ≡ Some pages
            → Answers result (lookup_answer (fin.get (files pages) name.now)) }
        ensures solo { (pages : List (List ℕ)) → A.pages self.old.area ≡ Some pages → IsSoloDisk pages }
        ensures short { IfOk result (λ info. info.pages ≤ 4000) }
        ensures refusals { IfErr result (λ fault. (fault ≡ NoFile) ⊎ (fault ≡ DiskFault)) }
        ensures left { A.pages self.new.area ≡ A.pages self.old.area }
        ensures after { self.new ≡ after_reading self.old self.new.area result }
        ensures cause { FaultsOnly (A.faults self.old.area) (A.faults self.new.area) result }
    {
        let place = match place_of(&self.entries, name.bytes()) {
            Some(place) => place,
            None => return Err(FileFault::NoFile),
        };
        let entry = self.entries[place];
        let answer = info(&mut self.area, &entry);
        self.sound = stays_sound(&answer);
        answer
    }

    /// Reads page n of a file, from 1. Only a failed read may leave other bytes in `page`.
    pub fn read_page(&mut self, name: &Ident, n: u16, page: &mut Page) -> Result<(), FileFault>
        requires { IsTrue self.old.sound }
        ensures answer { (pages : List (List ℕ)) → A.pages self.old.area ≡ Some pages
            → Answers result (read_answer (fin.get (files pages) name.now) n) }
        ensures solo { (pages : List (List ℕ)) → A.pages self.old.area ≡ Some pages → IsSoloDisk pages }
        ensures page { (pages : List (List ℕ)) (file : File) → A.pages self.old.area ≡ Some pages
            → fin.get (files pages) name.now ≡ Some file
            → OnOk result (page.new.0 ≡ slice_index_or file.pages (n - 1) []) }
        ensures refusals { IfErr result (λ fault. (fault ≡ NoFile) ⊎ (fault ≡ PageRange)
            ⊎ (fault ≡ DiskFault)) }
        ensures refused { IfErr result (λ fault. (fault ≡ DiskFault) ⊎ (page.new ≡ page.old)) }
        ensures left { A.pages self.new.area ≡ A.pages self.old.area }
        ensures after { self.new ≡ after_reading self.old self.new.area result }
        ensures cause { FaultsOnly (A.faults self.old.area) (A.faults self.new.area) result }
    {
        let place = match place_of(&self.entries, name.bytes()) {
            Some(place) => place,
            None => return Err(FileFault::NoFile),
        };
        let index = self.entries[place].address;
        let answer = read_file_page(&mut self.area, index, n, page);
        self.sound = stays_sound(&answer);
        answer
    }

    /// The least name behind this one, or the least of all where it is `None`. It is found in memory, so the
    /// area is never asked.
    pub fn name_after(&mut self, after: Option<&Ident>) -> Result<Option<Ident>, FileFault>
        requires { IsTrue self.old.sound }
        ensures answer { (pages : List (List ℕ)) → A.pages self.old.area ≡ Some pages
            → IfOk result (IsNameAfter (files pages) (option_copied after.entry)) }
        ensures done { IsOk result }
        ensures left { self.new ≡ self.old }
    {
        match place_after(&self.entries, bytes_of(after)) {
            Some(place) => Ok(Ident::of(trim_end(&self.entries[place].name))),
            None => Ok(None),
        }
    }
}

// The characters of a name, if there is one.
fn bytes_of(name: Option<&Ident>) -> Option<[u8; 12]>
    ensures { result ≡ option_copied name.entry }
{
    match name {
        Some(name) => Some(name.bytes()),
        None => None,
    }
}

// What is said of the file of an entry.
fn info<A: Area>(area: &mut A, entry: &Entry) -> Result<FileInfo, FileFault>
    requires size { A.size area.old ≡ 4288 }
    requires address { IsAddress entry.now.address }
    ensures answer { (pages : List (List ℕ)) → A.pages area.old ≡ Some pages
        → number_of pages entry.now.address 0 ≤ 4000
        → Answers result (Ok (record {
          kind =
              kind_of entry.now.kind;
          protected =
              entry.now.protection == 1;
          pages = number_of pages entry.now.address 0;
        })) }
    ensures short { IfOk result (λ info. info.pages ≤ 4000) }
    ensures left { A.pages area.new ≡ A.pages area.old }
    ensures size { A.size area.new ≡ A.size area.old }
    ensures fault { IfErr result (λ fault. fault ≡ DiskFault) }
    ensures cause { FaultsOnly (A.faults area.old) (A.faults area.new) result }
{
    let mut page = Page::zeros();
    read(area, entry.address, &mut page)?;
    Ok(FileInfo {
        kind: FileKind::of(entry.kind),
        protected: entry.protection == 1,
        pages: number(&page, 0).min(4000),
    })
}
