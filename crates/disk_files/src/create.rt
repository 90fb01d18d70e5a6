ghost use Rattle.std.specs.Prelude.{◌≡◌, ◌≢◌, ◌+◌, ℕ, ◌<◌, ◌≤◌, List, [], Some, false, length, slice_index_or, IfErr, OnOk};
ghost use Rattle.std.specs.FinSet as set;
ghost use Rattle.std.specs.FinMap as fin;
ghost use Rattle.solo_base.specs.Ident.{IsIdent};
ghost use Rattle.disk_layout.specs.Files.{files};
ghost use Rattle.disk_layout.specs.Layout.{IsLaidOut, blank_entry};
ghost use Rattle.disk_layout.specs.Judging.{IsKeptEntry};
ghost use Rattle.disk_layout.specs.Taking.{TakesIndex};
ghost use Rattle.disk_files.specs.declared.fault.FileFault.TheVariants.{DiskFault};
ghost use Rattle.disk_files.specs.Answers.{FaultsOnly, LaidNow, PutsFile, StandsOpen, Stays, Told};

use crate::FileFault;
use crate::append::{save_map, take};
use crate::transfer::write;
use crate::write_entry::save_entry;
use disk_layout::{Entry, FileKind, key_of, put_name};
use disk_pages::{AREA_PAGES, PageMap};
use solo_base::Page;
use solo_devices::Area;

/// Puts an empty file into an empty place of the catalogue.
#[tactic(auto, using(crate::proofs::Kept::stays_then, crate::proofs::Kept::faults_then))]
pub fn create_file<A: Area>(
    area: &mut A,
    map: &mut PageMap,
    entries: &mut [Entry],
    place: u16,
    name: [u8; 12],
    kind: FileKind,
) -> Result<(), FileFault>
    requires size { A.size area.old ≡ AREA_PAGES }
    requires room { set.len map.old < AREA_PAGES }
    requires places { length entries.old ≡ 240 }
    requires place { place < 240 }
    requires ident { IsIdent name }
    ensures wrote { (pages : List (List ℕ)) → A.pages area.old ≡ Some pages
        → IsLaidOut entries.old map.old pages
        → (slice_index_or entries.old place blank_entry).kind ≡ 0
        → ((k : ℕ) → k < 240 → (slice_index_or entries.old k blank_entry).kind ≢ 0
        → (slice_index_or entries.old k blank_entry).name ≢ name)
        → OnOk result (LaidNow (A.pages area.new) entries.new map.new
        (fin.insert (files pages) name (record { kind = kind; protected = false; pages = [] }))
        × (set.len map.new ≡ set.len map.old + 1)
        × Told (A.pages area.new) (λ after. TakesIndex pages after name)) }
    ensures places { length entries.new ≡ 240 }
    ensures puts { OnOk result (PutsFile entries.old entries.new place name) }
    ensures named { OnOk result ((slice_index_or entries.new place blank_entry).name ≡ name) }
    ensures open { ((k : ℕ) → k < 240 → (slice_index_or entries.old k blank_entry).kind ≢ 0
        → (slice_index_or entries.old k blank_entry).name ≢ name)
        → OnOk result (StandsOpen entries.new name) }
    ensures kept { ((p : ℕ) → p < 240 → IsKeptEntry (slice_index_or entries.old p blank_entry))
        → (p : ℕ) → p < 240 → IsKeptEntry (slice_index_or entries.new p blank_entry) }
    ensures size { A.size area.new ≡ A.size area.old }
    ensures stays { Stays (A.pages area.old) (A.size area.old) (A.pages area.new) (A.size area.new) }
    ensures fault { IfErr result (λ fault. fault ≡ DiskFault) }
    ensures cause { FaultsOnly (A.faults area.old) (A.faults area.new) result }
{
    let index = take(map);
    write(area, index, &Page::zeros())?;
    let key = key_of(&name);
    let entry = Entry {
        name,
        kind: kind.number(),
        address: index,
        protection: 0,
        key,
        searches: 0,
    };
    put_name(entries, place as usize, &entry);
    save_entry(area, entries, place)?;
    save_entry(area, entries, key - 1)?;
    save_map(area, map)
}
