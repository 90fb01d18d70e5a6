ghost use Rattle.std.specs.Prelude.{◌≡◌, ◌≢◌, ℕ, ◌-◌, ◌<◌, List, Some, length, slice_index_or, IfErr, OnOk};
ghost use Rattle.std.specs.FinMap as fin;
ghost use Rattle.solo_base.specs.Ident.{IsIdent};
ghost use Rattle.disk_layout.specs.Files.{file_at, files};
ghost use Rattle.disk_layout.specs.Format.{key_of};
ghost use Rattle.disk_layout.specs.Layout.{IsLaidOut, blank_entry};
ghost use Rattle.disk_layout.specs.Judging.{IsKeptEntry};
ghost use Rattle.disk_layout.specs.Writing.{IsRenamed};
ghost use Rattle.disk_pages.specs.Pages.{Pages};
ghost use Rattle.disk_files.specs.declared.fault.FileFault.TheVariants.{DiskFault};
ghost use Rattle.disk_files.specs.Answers.{FaultsOnly, LaidNow, Stays};

use crate::FileFault;
use crate::write_entry::save_entry;
use disk_layout::{Entry, clear_name, empty_place, key_of, put_name};
use disk_pages::AREA_PAGES;
use solo_devices::Area;

/// Gives the file at a place of the catalogue another name.
#[tactic(auto, using(crate::proofs::Kept::stays_then, crate::proofs::Kept::faults_then))]
pub fn rename_file<A: Area>(
    area: &mut A,
    entries: &mut [Entry],
    place: u16,
    name: [u8; 12],
) -> Result<(), FileFault>
    requires size { A.size area.old ≡ AREA_PAGES }
    requires places { length entries.old ≡ 240 }
    requires place { place < 240 }
    requires kept { IsKeptEntry (slice_index_or entries.old place blank_entry) }
    requires used { (slice_index_or entries.old place blank_entry).kind ≢ 0 }
    requires ident { IsIdent name }
    ensures wrote { (pages : List (List ℕ)) (taken : Pages) → A.pages area.old ≡ Some pages
        → IsLaidOut entries.old taken pages
        → ((k : ℕ) → k < 240 → (slice_index_or entries.old k blank_entry).kind ≢ 0
        → (slice_index_or entries.old k blank_entry).name ≢ name)
        → let entry = slice_index_or entries.old place blank_entry in
        OnOk result (LaidNow (A.pages area.new) entries.new taken
        (fin.insert (fin.remove (files pages) entry.name) name (file_at pages entry))) }
    ensures places { length entries.new ≡ 240 }
    ensures renamed { (pages : List (List ℕ)) (taken : Pages) → A.pages area.old ≡ Some pages
        → IsLaidOut entries.old taken pages → OnOk result (IsRenamed entries.old entries.new place name) }
    ensures kept { ((p : ℕ) → p < 240 → IsKeptEntry (slice_index_or entries.old p blank_entry))
        → (p : ℕ) → p < 240 → IsKeptEntry (slice_index_or entries.new p blank_entry) }
    ensures size { A.size area.new ≡ A.size area.old }
    ensures stays { Stays (A.pages area.old) (A.size area.old) (A.pages area.new) (A.size area.new) }
    ensures fault { IfErr result (λ fault. fault ≡ DiskFault) }
    ensures cause { FaultsOnly (A.faults area.old) (A.faults area.new) result }
{
    let old = entries[place as usize];
    clear_name(entries, place as usize);
    let key = key_of(&name);
    let to = match empty_place(entries, key as usize - 1) {
        Some(to) => to as u16,
        None => unreachable!(),
    };
    let new = Entry { name, key, ..old };
    put_name(entries, to as usize, &new);
    save_entry(area, entries, place)?;
    save_entry(area, entries, old.key - 1)?;
    save_entry(area, entries, to)?;
    save_entry(area, entries, key - 1)
}
