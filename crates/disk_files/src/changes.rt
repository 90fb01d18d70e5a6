ghost use Rattle.std.specs.Prelude.{◌≡◌, ◌≢◌, ℕ, ◌+◌, ◌-◌, ◌<◌, ◌≤◌, ◌==◌, ◌⊎◌, List, [], Some, Ok, Err, IsTrue, length, slice_index_or, slice_set, if◌then◌else◌, IfErr, OnOk, false};
ghost use Rattle.std.specs.FinMap as fin;
ghost use Rattle.disk_layout.specs.Disk.{disk_of};
ghost use Rattle.disk_layout.specs.Format.{key_of};
ghost use Rattle.disk_layout.specs.Layout.{blank_entry};
ghost use Rattle.disk_layout.specs.Names.{IsUsed, name_at};
ghost use Rattle.disk_layout.specs.Writing.{ClearsName, IsFirstEmpty, IsRenamed};
ghost use Rattle.disk_layout.specs.Deleting.{pages_held};
ghost use Rattle.disk_layout.specs.Taking.{HasIndex, TakesIndex, TakesNext};
ghost use Rattle.disk_layout.specs.Files.{File, files, free_count, name_count, page_of, with_page, with_page_at, with_protection};
ghost use Rattle.disk_files.specs.declared.fault.FileFault.TheVariants.{NoFile, Exists, CatalogFull, Protected, DiskFull, FileFull, PageRange, DiskFault};
ghost use Rattle.disk_files.specs.Answers.{Answers, Holds, Told, FaultsOnly, append_answer, create_answer, replace_answer, protect_answer, delete_answer, rename_answer, pages_needed, stays_sound, KeepsTable, PutsFile, StandsAt, StandsOpen};

use crate::FileFault;
use crate::append::append_page;
use crate::create::create_file;
use crate::delete::delete_file;
use crate::file_area::FileArea;
use crate::file_page::replace_page;
use crate::rename::rename_file;
use crate::transfer::stays_sound;
use crate::write_entry::write_entry;
use disk_layout::{FileKind, empty_place, is_named, key_of, place_of, set_protection};
use solo_base::{Ident, Page};
use solo_devices::Area;

impl<A: Area> FileArea<A> {
    /// Puts a page behind a file. It takes the least free page; every 250 pages take a part page before.
    pub fn append(&mut self, name: &Ident, page: &Page) -> Result<(), FileFault>
        requires { IsTrue self.old.sound }
        ensures answer { (pages : List (List ℕ)) → A.pages self.old.area ≡ Some pages
            → Answers result (append_answer (fin.get (files pages) name.now) (free_count pages)) }
        ensures file { (pages : List (List ℕ)) (file : File) → A.pages self.old.area ≡ Some pages
            → fin.get (files pages) name.now ≡ Some file
            → OnOk result (Holds (A.pages self.new.area)
            (fin.insert (files pages) name.now (with_page file page.now.0))
            (free_count pages - pages_needed (length file.pages))) }
        ensures least { (pages : List (List ℕ)) (file : File) → A.pages self.old.area ≡ Some pages
            → fin.get (files pages) name.now ≡ Some file
            → OnOk result (Told (A.pages self.new.area)
            (λ after. TakesNext pages after name.now (length file.pages))) }
        ensures refusals { IfErr result (λ fault. (fault ≡ NoFile) ⊎ (fault ≡ Protected) ⊎ (fault ≡ FileFull)
            ⊎ (fault ≡ DiskFull) ⊎ (fault ≡ DiskFault)) }
        ensures open { StandsOpen self.old.entries name.now
            → IfErr result (λ fault. (fault ≡ FileFull) ⊎ (fault ≡ DiskFull) ⊎ (fault ≡ DiskFault)) }
        ensures refused { IfErr result (λ fault. (fault ≡ DiskFault)
            ⊎ ((A.pages self.new.area ≡ A.pages self.old.area) × (self.new.taken ≡ self.old.taken))) }
        ensures entries { self.new.entries ≡ self.old.entries }
        ensures sound { self.new.sound ≡ stays_sound result }
        ensures cause { FaultsOnly (A.faults self.old.area) (A.faults self.new.area) result }
    {
        let place = match place_of(&self.entries, name.bytes()) {
            Some(place) => place,
            None => return Err(FileFault::NoFile),
        };
        let entry = self.entries[place];
        if entry.protection == 1 {
            return Err(FileFault::Protected);
        }
        let answer = append_page(&mut self.area, &mut self.map, entry.address, page);
        self.sound = stays_sound(&answer);
        answer
    }
}

impl<A: Area> FileArea<A> {
    /// Makes page n of a file another.
    pub fn replace(&mut self, name: &Ident, n: u16, page: &Page) -> Result<(), FileFault>
        requires { IsTrue self.old.sound }
        ensures answer { (pages : List (List ℕ)) → A.pages self.old.area ≡ Some pages
            → Answers result (replace_answer (fin.get (files pages) name.now) n) }
        ensures file { (pages : List (List ℕ)) (file : File) → A.pages self.old.area ≡ Some pages
            → fin.get (files pages) name.now ≡ Some file
            → OnOk result (Holds (A.pages self.new.area)
            (fin.insert (files pages) name.now (with_page_at file n page.now.0)) (free_count pages)) }
        ensures place { (pages : List (List ℕ)) → A.pages self.old.area ≡ Some pages
            → OnOk result ((index : ℕ) × HasIndex pages name.now index
            × (A.pages self.new.area
            ≡ Some (slice_set pages (page_of (disk_of pages) index (n - 1)) page.now.0))) }
        ensures kept { KeepsTable self.old self.new }
        ensures refusals { IfErr result (λ fault. (fault ≡ NoFile) ⊎ (fault ≡ Protected) ⊎ (fault ≡ PageRange)
            ⊎ (fault ≡ DiskFault)) }
        ensures refused { IfErr result (λ fault. (fault ≡ DiskFault)
            ⊎ (A.pages self.new.area ≡ A.pages self.old.area)) }
        ensures sound { self.new.sound ≡ stays_sound result }
        ensures cause { FaultsOnly (A.faults self.old.area) (A.faults self.new.area) result }
    {
        let place = match place_of(&self.entries, name.bytes()) {
            Some(place) => place,
            None => return Err(FileFault::NoFile),
        };
        let file = self.entries[place];
        if file.protection == 1 {
            return Err(FileFault::Protected);
        }
        let answer = replace_page(&mut self.area, file.address, n, page);
        self.sound = stays_sound(&answer);
        answer
    }

    /// Makes an empty file. Its name comes into the first empty place from that of its key on, cyclically.
    pub fn create(&mut self, name: &Ident, kind: FileKind) -> Result<(), FileFault>
        requires { IsTrue self.old.sound }
        ensures answer { (pages : List (List ℕ)) → A.pages self.old.area ≡ Some pages
            → Answers result (create_answer (fin.get (files pages) name.now) (name_count pages)
            (free_count pages)) }
        ensures file { (pages : List (List ℕ)) → A.pages self.old.area ≡ Some pages
            → OnOk result (Holds (A.pages self.new.area)
            (fin.insert (files pages) name.now (record {
              kind =
                  kind;
              protected = false;
              pages = [];
            })) (free_count pages - 1)) }
        ensures least { (pages : List (List ℕ)) → A.pages self.old.area ≡ Some pages
            → OnOk result (Told (A.pages self.new.area) (λ after. TakesIndex pages after name.now)) }
        ensures place { OnOk result ((p : ℕ) × IsFirstEmpty self.old.entries (key_of name.now - 1) p
            × ((slice_index_or self.new.entries p blank_entry).name ≡ name.now)) }
        ensures puts { OnOk result ((p : ℕ) × IsFirstEmpty self.old.entries (key_of name.now - 1) p
            × PutsFile self.old.entries self.new.entries p name.now) }
        ensures open { OnOk result (StandsOpen self.new.entries name.now) }
        ensures refusals { IfErr result (λ fault. (fault ≡ Exists) ⊎ (fault ≡ CatalogFull)
            ⊎ (fault ≡ DiskFull) ⊎ (fault ≡ DiskFault)) }
        ensures refused { IfErr result (λ fault. (fault ≡ DiskFault)
            ⊎ (A.pages self.new.area ≡ A.pages self.old.area)) }
        ensures kept { IfErr result (λ fault. (fault ≡ DiskFault) ⊎ KeepsTable self.old self.new) }
        ensures sound { self.new.sound ≡ stays_sound result }
        ensures cause { FaultsOnly (A.faults self.old.area) (A.faults self.new.area) result }
    {
        if is_named(&self.entries, name.bytes()) {
            return Err(FileFault::Exists);
        }
        let place = match empty_place(&self.entries, key_of(&name.bytes()) as usize - 1) {
            Some(place) => place,
            None => return Err(FileFault::CatalogFull),
        };
        if self.map.free() == 0 {
            return Err(FileFault::DiskFull);
        }
        let answer = create_file(
            &mut self.area,
            &mut self.map,
            &mut self.entries,
            place as u16,
            name.bytes(),
            kind,
        );
        self.sound = stays_sound(&answer);
        answer
    }

    /// Takes a file away, and gives back its pages, its parts and its index page.
    pub fn delete(&mut self, name: &Ident) -> Result<(), FileFault>
        requires { IsTrue self.old.sound }
        ensures answer { (pages : List (List ℕ)) → A.pages self.old.area ≡ Some pages
            → Answers result (delete_answer (fin.get (files pages) name.now)) }
        ensures file { (pages : List (List ℕ)) (file : File) → A.pages self.old.area ≡ Some pages
            → fin.get (files pages) name.now ≡ Some file
            → OnOk result (Holds (A.pages self.new.area) (fin.remove (files pages) name.now)
            (free_count pages + pages_held (length file.pages))) }
        ensures place { (pages : List (List ℕ)) → A.pages self.old.area ≡ Some pages
            → OnOk result ((p : ℕ) × StandsAt self.old.entries p name.now
            × ClearsName self.old.entries self.new.entries p) }
        ensures refusals { IfErr result (λ fault.
            (fault ≡ NoFile) ⊎ (fault ≡ Protected) ⊎ (fault ≡ DiskFault)) }
        ensures refused { IfErr result (λ fault. (fault ≡ DiskFault)
            ⊎ (A.pages self.new.area ≡ A.pages self.old.area)) }
        ensures kept { IfErr result (λ fault. (fault ≡ DiskFault) ⊎ KeepsTable self.old self.new) }
        ensures sound { self.new.sound ≡ stays_sound result }
        ensures cause { FaultsOnly (A.faults self.old.area) (A.faults self.new.area) result }
    {
        let place = match place_of(&self.entries, name.bytes()) {
            Some(place) => place,
            None => return Err(FileFault::NoFile),
        };
        let entry = self.entries[place];
        if entry.protection == 1 {
            return Err(FileFault::Protected);
        }
        let answer = delete_file(
            &mut self.area,
            &mut self.map,
            &mut self.entries,
            place as u16,
        );
        self.sound = stays_sound(&answer);
        answer
    }

    /// Gives a file another name. The old one is cleared, and then the new one comes into the first empty
    /// place from that of its key on, cyclically.
    pub fn rename(&mut self, old: &Ident, new: &Ident) -> Result<(), FileFault>
        requires { IsTrue self.old.sound }
        ensures answer { (pages : List (List ℕ)) → A.pages self.old.area ≡ Some pages
            → Answers result (rename_answer (fin.get (files pages) old.now) (fin.get (files pages) new.now)) }
        ensures file { (pages : List (List ℕ)) (file : File) → A.pages self.old.area ≡ Some pages
            → fin.get (files pages) old.now ≡ Some file
            → OnOk result (Holds (A.pages self.new.area)
            (fin.insert (fin.remove (files pages) old.now) new.now file) (free_count pages)) }
        ensures place { (pages : List (List ℕ)) → A.pages self.old.area ≡ Some pages
            → OnOk result ((p : ℕ) × IsUsed self.old.entries p × (name_at self.old.entries p ≡ old.now)
            × IsRenamed self.old.entries self.new.entries p new.now) }
        ensures refusals { IfErr result (λ fault. (fault ≡ NoFile) ⊎ (fault ≡ Exists) ⊎ (fault ≡ Protected)
            ⊎ (fault ≡ DiskFault)) }
        ensures refused { IfErr result (λ fault. (fault ≡ DiskFault)
            ⊎ (A.pages self.new.area ≡ A.pages self.old.area)) }
        ensures kept { IfErr result (λ fault. (fault ≡ DiskFault) ⊎ KeepsTable self.old self.new) }
        ensures taken { self.new.taken ≡ self.old.taken }
        ensures sound { self.new.sound ≡ stays_sound result }
        ensures cause { FaultsOnly (A.faults self.old.area) (A.faults self.new.area) result }
    {
        let place = match place_of(&self.entries, old.bytes()) {
            Some(place) => place,
            None => return Err(FileFault::NoFile),
        };
        if is_named(&self.entries, new.bytes()) {
            return Err(FileFault::Exists);
        }
        let entry = self.entries[place];
        if entry.protection == 1 {
            return Err(FileFault::Protected);
        }
        let answer = rename_file(&mut self.area, &mut self.entries, place as u16, new.bytes());
        self.sound = stays_sound(&answer);
        answer
    }

    /// Sets whether a file is protected.
    pub fn protect(&mut self, name: &Ident, on: bool) -> Result<(), FileFault>
        requires { IsTrue self.old.sound }
        ensures answer { (pages : List (List ℕ)) → A.pages self.old.area ≡ Some pages
            → Answers result (protect_answer (fin.get (files pages) name.now)) }
        ensures file { (pages : List (List ℕ)) (file : File) → A.pages self.old.area ≡ Some pages
            → fin.get (files pages) name.now ≡ Some file
            → OnOk result (Holds (A.pages self.new.area)
            (fin.insert (files pages) name.now (with_protection file on)) (free_count pages)) }
        ensures place { OnOk result ((p : ℕ) × StandsAt self.old.entries p name.now
            × (self.new.entries ≡ slice_set self.old.entries p (record (slice_index_or self.old.entries p
            blank_entry) { protection = if on then 1 else 0 }))) }
        ensures refusals { IfErr result (λ fault. (fault ≡ NoFile) ⊎ (fault ≡ DiskFault)) }
        ensures refused { IfErr result (λ fault. (fault ≡ DiskFault)
            ⊎ (A.pages self.new.area ≡ A.pages self.old.area)) }
        ensures kept { IfErr result (λ fault. (fault ≡ DiskFault) ⊎ KeepsTable self.old self.new) }
        ensures taken { self.new.taken ≡ self.old.taken }
        ensures sound { self.new.sound ≡ stays_sound result }
        ensures cause { FaultsOnly (A.faults self.old.area) (A.faults self.new.area) result }
    {
        let place = match place_of(&self.entries, name.bytes()) {
            Some(place) => place,
            None => return Err(FileFault::NoFile),
        };
        let entry = set_protection(&mut self.entries, place, protection_number(on));
        let answer = write_entry(&mut self.area, place as u16, &entry);
        self.sound = stays_sound(&answer);
        answer
    }
}

// The number by which an entry says whether its file is protected.
fn protection_number(on: bool) -> u16
    ensures small { result ≤ 1 }
    ensures same { (result == 1) ≡ on }
    ensures number { result ≡ (if on then 1 else 0) }
{
    if on { 1 } else { 0 }
}
