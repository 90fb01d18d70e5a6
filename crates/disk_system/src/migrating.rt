ghost use Rattle.std.specs.Prelude.{◌≡◌, ◌≢◌, ◌≤◌, ◌<◌, ◌⊎◌, ℕ, List, Some, length, slice_index, slice_index_or, IfErr, MatchResult};
ghost use Rattle.disk_layout.specs.Format.{IsAddress, IsSoloDisk};
ghost use Rattle.disk_layout.specs.Format1.{IsSoloDisk1};
ghost use Rattle.disk_layout.specs.Files.{free_count, name_count};
ghost use Rattle.disk_layout.specs.Layout.{blank_entry};
ghost use Rattle.disk_files.specs.Answers.{FaultsOnly, IsOlderRead, Stays, Told};
ghost use Rattle.disk_system.specs.Migrating.{IsNewer, LengthsRead, MadeOf, Migrates, RefusesNewer, RefusesOlder, as_fault, migration, parts_needed};

use crate::lengths::{parts_for, read_lengths};
use crate::newer::write_newer;
use disk_files::FileFault;
use disk_files::bare_area::{judge, judge_older, read};
use disk_layout::{Entry, count_names};
use disk_pages::{AREA_PAGES, PageMap, number};
use solo_base::Page;
use solo_devices::Area;
use std::alloc::Global;

/// What a migration found.
#[derive(Clone, Copy, Debug, PartialEq, Eq)]
pub struct Migrated {
    /// How many files the area has.
    pub files: u16,
}

/// Why an area wasn't made one of format 2.
#[derive(Clone, Copy, Debug, PartialEq, Eq)]
pub enum MigrateFault {
    /// The area is no Solo disk: this is the least page that breaks its format.
    NotSolo { page: u16 },
    /// The files need so many parts, and so many pages are free.
    NoRoom { needed: u16, free: u16 },
    /// A read or a write of the area failed.
    DiskFault,
    NoMemory,
}

/// The entry of no file.
const BLANK: Entry = Entry {
    name: [0; 12],
    kind: 0,
    address: 0,
    protection: 0,
    key: 0,
    searches: 0,
};

impl From<FileFault> for MigrateFault {
    ghost from_gives = { λ fault e. e ≡ as_fault fault };

    fn from(fault: FileFault) -> MigrateFault {
        match fault {
            FileFault::NotSolo { page } => MigrateFault::NotSolo { page },
            FileFault::NoMemory => MigrateFault::NoMemory,
            _ => MigrateFault::DiskFault,
        }
    }
}

/// Makes an area of format 1 one of format 2 with the same files; one of format 2 is judged and stays as it
/// is. It is refused before anything is written, unless the area fails.
#[tactic(auto, using(disk_files::proofs::Kept::stays_then, disk_files::proofs::Kept::faults_then))]
pub fn migrate<A: Area>(alloc: Global, area: &mut A) -> Result<Migrated, MigrateFault>
    requires { A.size area.old ≡ AREA_PAGES }
    ensures newer { (pages : List (List ℕ)) → A.pages area.old ≡ Some pages → IsNewer pages
        → MatchResult result (λ done. IsSoloDisk pages × (done.files ≡ name_count pages)
        × (A.pages area.new ≡ Some pages)) (RefusesNewer pages) }
    ensures older { (pages : List (List ℕ)) → A.pages area.old ≡ Some pages → (IsNewer pages → ⊥)
        → MatchResult result (λ done. MadeOf pages done.files × Told (A.pages area.new) (Migrates pages))
        (RefusesOlder pages) }
    ensures refused { IfErr result (λ fault. (fault ≡ MigrateFault.DiskFault)
        ⊎ (A.pages area.new ≡ A.pages area.old)) }
    ensures size { A.size area.new ≡ A.size area.old }
    ensures cause { FaultsOnly (A.faults area.old) (A.faults area.new) (migration result) }
{
    let mut first = Page::zeros();
    match read(area, 0, &mut first) {
        Ok(()) => migrate_by(alloc, area, number(&first, 8)),
        Err(_) => Err(MigrateFault::DiskFault),
    }
}

// Migrates an area whose label has this number.
fn migrate_by<A: Area>(alloc: Global, area: &mut A, format: u16) -> Result<Migrated, MigrateFault>
    requires { A.size area.old ≡ AREA_PAGES }
    ensures newer { (pages : List (List ℕ)) → A.pages area.old ≡ Some pages → format ≡ 2
        → MatchResult result (λ done. IsSoloDisk pages × (done.files ≡ name_count pages)
        × (A.pages area.new ≡ Some pages)) (RefusesNewer pages) }
    ensures older { (pages : List (List ℕ)) → A.pages area.old ≡ Some pages → format ≢ 2
        → MatchResult result (λ done. MadeOf pages done.files × Told (A.pages area.new) (Migrates pages))
        (RefusesOlder pages) }
    ensures refused { IfErr result (λ fault. (fault ≡ MigrateFault.DiskFault)
        ⊎ (A.pages area.new ≡ A.pages area.old)) }
    ensures size { A.size area.new ≡ A.size area.old }
    ensures cause { FaultsOnly (A.faults area.old) (A.faults area.new) (migration result) }
{
    if format == 2 {
        judge_newer(alloc, area)
    } else {
        make_newer(alloc, area)
    }
}

// Judges an area by format 2.
fn judge_newer<A: Area>(alloc: Global, area: &mut A) -> Result<Migrated, MigrateFault>
    requires { A.size area.old ≡ AREA_PAGES }
    ensures judged { (pages : List (List ℕ)) → A.pages area.old ≡ Some pages
        → MatchResult result (λ done. IsSoloDisk pages × (done.files ≡ name_count pages))
        (RefusesNewer pages) }
    ensures left { A.pages area.new ≡ A.pages area.old }
    ensures size { A.size area.new ≡ A.size area.old }
    ensures cause { FaultsOnly (A.faults area.old) (A.faults area.new) (migration result) }
{
    let mut entries = [BLANK; 240];
    match judge(alloc, area, &mut entries) {
        Ok(_) => Ok(Migrated {
            files: count_names(&entries),
        }),
        Err(fault) => Err(MigrateFault::from(fault)),
    }
}

// Judges an area by format 1, and makes it one of format 2.
fn make_newer<A: Area>(alloc: Global, area: &mut A) -> Result<Migrated, MigrateFault>
    requires { A.size area.old ≡ AREA_PAGES }
    ensures made { (pages : List (List ℕ)) → A.pages area.old ≡ Some pages
        → MatchResult result (λ done. MadeOf pages done.files × Told (A.pages area.new) (Migrates pages))
        (RefusesOlder pages) }
    ensures refused { IfErr result (λ fault. (fault ≡ MigrateFault.DiskFault)
        ⊎ (A.pages area.new ≡ A.pages area.old)) }
    ensures size { A.size area.new ≡ A.size area.old }
    ensures cause { FaultsOnly (A.faults area.old) (A.faults area.new) (migration result) }
{
    let mut entries = [BLANK; 240];
    match judge_older(alloc, area, &mut entries) {
        Ok(mut map) => give_parts(area, &mut map, &entries),
        Err(fault) => Err(MigrateFault::from(fault)),
    }
}

// Makes an area of format 1 whose catalogue and taken pages were read one of format 2.
fn give_parts<A: Area>(
    area: &mut A,
    map: &mut PageMap,
    entries: &[Entry],
) -> Result<Migrated, MigrateFault>
    requires size { A.size area.old ≡ AREA_PAGES }
    requires places { length entries.now ≡ 240 }
    requires addresses { (p : ℕ) → p < 240 → (slice_index_or entries.now p blank_entry).kind ≢ 0
        → IsAddress (slice_index_or entries.now p blank_entry).address }
    ensures made { (pages : List (List ℕ)) → A.pages area.old ≡ Some pages
        → IsOlderRead entries.now map.old pages
        → MatchResult result (λ done. MadeOf pages done.files × Told (A.pages area.new) (Migrates pages))
        (RefusesOlder pages) }
    ensures refused { IfErr result (λ fault. (fault ≡ MigrateFault.DiskFault)
        ⊎ (A.pages area.new ≡ A.pages area.old)) }
    ensures size { A.size area.new ≡ A.size area.old }
    ensures cause { FaultsOnly (A.faults area.old) (A.faults area.new) (migration result) }
{
    let mut lengths = [0; 240];
    match read_lengths(area, entries, &mut lengths) {
        Ok(()) => with_room(area, map, entries, &lengths),
        Err(_) => Err(MigrateFault::DiskFault),
    }
}

// Makes the area one of format 2 where there is room for the parts that files of these lengths need.
fn with_room<A: Area>(
    area: &mut A,
    map: &mut PageMap,
    entries: &[Entry],
    lengths: &[u16],
) -> Result<Migrated, MigrateFault>
    requires size { A.size area.old ≡ AREA_PAGES }
    requires places { length entries.now ≡ 240 }
    requires addresses { (p : ℕ) → p < 240 → (slice_index_or entries.now p blank_entry).kind ≢ 0
        → IsAddress (slice_index_or entries.now p blank_entry).address }
    requires lengths { length lengths.now ≡ 240 }
    requires short { (p : ℕ) → slice_index lengths.now p ≤ 255 }
    ensures made { (pages : List (List ℕ)) → A.pages area.old ≡ Some pages
        → IsOlderRead entries.now map.old pages
        → LengthsRead pages 240 lengths.now
        → MatchResult result (λ done. MadeOf pages done.files × Told (A.pages area.new) (Migrates pages))
        (RefusesOlder pages) }
    ensures refused { IfErr result (λ fault. (fault ≡ MigrateFault.DiskFault)
        ⊎ (A.pages area.new ≡ A.pages area.old)) }
    ensures size { A.size area.new ≡ A.size area.old }
    ensures cause { FaultsOnly (A.faults area.old) (A.faults area.new) (migration result) }
{
    let needed = parts_for(lengths);
    let free = map.free();
    if free < needed {
        return Err(MigrateFault::NoRoom { needed, free });
    }
    match write_newer(area, map, entries, lengths) {
        Ok(()) => Ok(Migrated {
            files: count_names(entries),
        }),
        Err(_) => Err(MigrateFault::DiskFault),
    }
}
