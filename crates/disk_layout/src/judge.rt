ghost use Rattle.std.specs.Prelude.{◌≡◌, ◌≢◌, ℕ, ◌+◌, ◌*◌, ◌<◌, ◌≤◌, true, false, length, slice_index, slice_set};
ghost use Rattle.solo_base.specs.PageBytes.{number_at};
ghost use Rattle.disk_layout.specs.Disk.{Disk};
ghost use Rattle.disk_layout.specs.Format.{IsAddress, IsIndexPage, IsPartPage, IsFirstUse, IndexIsRight, NumbersAreRight, PartIsRight, file_length, part_count, count_in_part};
ghost use Rattle.disk_layout.specs.Format1.{all_of};
ghost use Rattle.disk_layout.specs.Judging.{Roles, FileRoles, MapRoles, HasNumbers};

use disk_pages::number;
use solo_base::Page;

/// Judges an index page, and notes its parts.
pub fn judge_index(page: &Page, roles: &mut [u8]) -> bool
    requires { length roles.old ≡ 4288 }
    ensures noted { (d : Disk) (i : ℕ) → IsIndexPage d i → HasNumbers d i page.now.0 → Roles d i 0 roles.old
        → Roles d (i + 1) 0 roles.new }
    ensures right { (d : Disk) (i : ℕ) → IsIndexPage d i → HasNumbers d i page.now.0 → Roles d i 0 roles.old
        → result ≡ true → IndexIsRight d i }
    ensures wrong { (d : Disk) (i : ℕ) → IsIndexPage d i → HasNumbers d i page.now.0 → Roles d i 0 roles.old
        → result ≡ false → IndexIsRight d i → ⊥ }
{
    let length = number(page, 0);
    let count = length.min(4000);
    let parts = (count + 249) / 250;
    let mut right = length <= 4000;
    for k in 0..parts {
        let noted = note_part(roles, number(page, 2 * (k + 1)), in_part(count, k));
        right = right && noted;
    }
    let rest = ends_in_zeros(page, parts + 1);
    right && rest
}

// How many pages part k of so many has.
fn in_part(count: u16, k: u16) -> u8
    requires { k < part_count count }
    ensures count { result ≡ count_in_part count k }
    ensures some { 0 < result }
    ensures few { result ≤ 250 }
{
    (count - 250 * k).min(250) as u8
}

// Notes a part that wasn't met yet.
fn note_part(roles: &mut [u8], q: u16, count: u8) -> bool
    requires { length roles.old ≡ 4288 }
    ensures new { result ≡ true
        → IsAddress q × (slice_index roles.old q ≡ 0) × (roles.new ≡ slice_set roles.old q count) }
    ensures not { result ≡ false
        → ((IsAddress q → slice_index roles.old q ≡ 0 → ⊥) × (roles.new ≡ roles.old)) }
{
    if q < 18 || q >= 4288 {
        return false;
    }
    if roles[q as usize] != 0 {
        return false;
    }
    roles[q as usize] = count;
    true
}

// Whether the numbers from this one on are 0.
fn ends_in_zeros(page: &Page, from: u16) -> bool
    ensures zeros { result ≡ true → (k : ℕ) → from ≤ k → k < 256 → number_at page.now.0 (2 * k) ≡ 0 }
    ensures not { result ≡ false → ((k : ℕ) → from ≤ k → k < 256 → number_at page.now.0 (2 * k) ≡ 0) → ⊥ }
{
    for k in from..256 {
        if number(page, 2 * k) != 0 {
            return false;
        }
    }
    true
}

/// Judges a part page with so many numbers in use, and notes its pages.
pub fn judge_part(page: &Page, count: u16, roles: &mut [u8]) -> bool
    requires room { length roles.old ≡ 4288 }
    requires few { count ≤ 250 }
    ensures noted { (d : Disk) (q by place : ℕ) → IsPartPage d q → IsFirstUse d q by place
        → count ≡ count_in_part (file_length d by) place → HasNumbers d q page.now.0
        → FileRoles d q 0 roles.old → FileRoles d q count roles.new }
    ensures right { (d : Disk) (q by place : ℕ) → IsPartPage d q → IsFirstUse d q by place
        → count ≡ count_in_part (file_length d by) place → HasNumbers d q page.now.0
        → FileRoles d q 0 roles.old → result ≡ true → PartIsRight d q count }
    ensures wrong { (d : Disk) (q by place : ℕ) → IsPartPage d q → IsFirstUse d q by place
        → count ≡ count_in_part (file_length d by) place → HasNumbers d q page.now.0
        → FileRoles d q 0 roles.old → result ≡ false → PartIsRight d q count → ⊥ }
{
    let mut right = true;
    for j in 0..count {
        let noted = note_part(roles, number(page, 2 * j), 251);
        right = right && noted;
    }
    let rest = ends_in_zeros(page, count);
    right && rest
}

/// Judges a map page of format 1, and notes its pages.
pub fn judge_map_page(page: &Page, roles: &mut [u8]) -> bool
    requires { length roles.old ≡ 4288 }
    ensures noted { (d : Disk) (i : ℕ) → IsIndexPage d i → HasNumbers d i page.now.0
        → MapRoles d i 0 roles.old
        → MapRoles d (i + 1) 0 roles.new }
    ensures right { (d : Disk) (i : ℕ) → IsIndexPage d i → HasNumbers d i page.now.0
        → MapRoles d i 0 roles.old
        → result ≡ true → NumbersAreRight d 255 all_of i }
    ensures wrong { (d : Disk) (i : ℕ) → IsIndexPage d i → HasNumbers d i page.now.0
        → MapRoles d i 0 roles.old
        → result ≡ false → NumbersAreRight d 255 all_of i → ⊥ }
{
    let length = number(page, 0);
    let count = length.min(255);
    let mut right = length <= 255;
    for j in 0..count {
        let noted = note_part(roles, number(page, 2 * (j + 1)), 251);
        right = right && noted;
    }
    let rest = ends_in_zeros(page, count + 1);
    right && rest
}
