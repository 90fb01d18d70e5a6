// The calls of a file, by its name.

ghost use Rattle.std.specs.Prelude.{◌≡◌, ℤ, ℕ, ◌+◌, ◌≤◌, List, Some, IsTrue, IfErr, IfOk, length, pos};
ghost use Rattle.std.specs.Option.{option_map};
ghost use Rattle.std.specs.FinMap as fin;
ghost use Rattle.solo_base.specs.Fits.{Fits};
ghost use Rattle.solo_base.specs.declared.system_call.SysCall.TheVariants as calls;
ghost use Rattle.solo_base.specs.declared.system_call.SysReply.TheVariants as replies;
ghost use Rattle.disk_layout.specs.Files.{File, files as file_map};
ghost use Rattle.disk_files.specs.declared.fault.FileFault.TheVariants.{DiskFault};
ghost use Rattle.disk_files.specs.Answers.{FaultsOnly, info_of, stays_sound};
ghost use Rattle.program_task.specs.Program.{Own};
ghost use Rattle.program_task.specs.OpenFiles.{gets, measures, kind_number, put_in, pages_free};
ghost use Rattle.prog_stack.specs.Answers.{AnswersBy, refused_by};
ghost use Rattle.prog_stack.specs.FileCalls.{page_number, OfFile, PutsSo, PutInto, IsShort};

use crate::arguments::are_bytes;
use disk_files::{FileArea, FileFault, FileInfo};
use disk_layout::FileKind;
use solo_base::{IDENT_LENGTH, Ident, Page, SysReply};
use solo_devices::Area;

/// What the catalogue says of a file, if there is one of this name.
pub fn find<A: Area>(files: &mut FileArea<A>, name: &Ident) -> Result<Option<FileInfo>, FileFault>
    requires { IsTrue files.old.sound }
    ensures found { (pages : List (List ℕ)) → A.pages files.old.area ≡ Some pages
        → IfOk result (λ found. found ≡ option_map info_of (fin.get (file_map pages) name.now)) }
    ensures short { IfOk result IsShort }
    ensures left { A.pages files.new.area ≡ A.pages files.old.area }
    ensures refusals { IfErr result (λ fault. fault ≡ DiskFault) }
    ensures sound { files.new.sound ≡ stays_sound result }
    ensures cause { FaultsOnly (A.faults files.old.area) (A.faults files.new.area) result }
{
    match files.lookup(name) {
        Ok(info) => Ok(Some(info)),
        Err(FileFault::NoFile) => Ok(None),
        Err(fault) => Err(fault),
    }
}

/// A refusal of the area is a call error, unless the area failed.
fn refused(fault: FileFault) -> Result<SysReply, FileFault>
    ensures { result ≡ refused_by fault }
{
    match fault {
        FileFault::DiskFault => Err(FileFault::DiskFault),
        _ => Ok(SysReply::CallError),
    }
}

// The number of a page, which isn't below 0.
fn number_of(p: &i16) -> Option<u16>
    ensures { result ≡ page_number p.now }
{
    u16::try_from(*p).ok()
}

/// GET: page `p` of a file.
pub fn get_page<A: Area>(
    files: &mut FileArea<A>,
    name: &Ident,
    p: &i16,
) -> Result<SysReply, FileFault>
    requires { IsTrue files.old.sound }
    ensures told { (pages : List (List ℕ)) → A.pages files.old.area ≡ Some pages
        → IfOk result (λ reply. OfFile (gets p.now) name.now (file_map pages) reply) }
    ensures fits { (f : ℤ) → IfOk result (λ reply. Fits (calls.Get f p.now) reply) }
    ensures left { A.pages files.new.area ≡ A.pages files.old.area }
    ensures refusals { IfErr result (λ fault. fault ≡ DiskFault) }
    ensures sound { files.new.sound ≡ stays_sound result }
    ensures cause { FaultsOnly (A.faults files.old.area) (A.faults files.new.area) result }
{
    let n = match number_of(p) {
        Some(n) => n,
        None => return Ok(SysReply::CallError),
    };
    let mut page = Page::zeros();
    match files.read_page(name, n, &mut page) {
        Ok(()) => Ok(page_reply(page)),
        Err(fault) => refused(fault),
    }
}

// The reply that gives a page.
fn page_reply(page: Page) -> SysReply
    ensures value { result ≡ replies.Page page }
    ensures fits { (f p : ℤ) → Fits (calls.Get f p) result }
{
    are_bytes(page.bytes());
    SysReply::Page(page)
}

/// PUT: an array becomes page `p` of a file, or the page behind its last.
pub fn put_page<A: Area>(
    files: &mut FileArea<A>,
    name: &Ident,
    p: &i16,
    page: &Page,
) -> Result<SysReply, FileFault>
    requires { IsTrue files.old.sound }
    ensures told { (pages : List (List ℕ)) → A.pages files.old.area ≡ Some pages
        → IfOk result (λ reply. PutsSo p.now page.now.0 name.now pages reply (A.pages files.new.area)) }
    ensures fits { (f : ℤ) → IfOk result (λ reply. Fits (calls.Put f p.now page.now) reply) }
    ensures refusals { IfErr result (λ fault. fault ≡ DiskFault) }
    ensures sound { files.new.sound ≡ stays_sound result }
    ensures cause { FaultsOnly (A.faults files.old.area) (A.faults files.new.area) result }
{
    let n = match number_of(p) {
        Some(n) => n,
        None => return Ok(SysReply::CallError),
    };
    let length = match find(files, name) {
        Ok(Some(info)) => info.pages,
        Ok(None) => return Ok(SysReply::CallError),
        Err(fault) => return Err(fault),
    };
    match put_numbered(files, name, n, length, page) {
        Ok(()) => Ok(SysReply::Done),
        Err(fault) => refused(fault),
    }
}

// Page n becomes this one, or the page behind the last, where the file has so many.
fn put_numbered<A: Area>(
    files: &mut FileArea<A>,
    name: &Ident,
    n: u16,
    count: u16,
    page: &Page,
) -> Result<(), FileFault>
    requires sound { IsTrue files.old.sound }
    requires short { count ≤ 4000 }
    ensures put { (pages : List (List ℕ)) (file : File) → A.pages files.old.area ≡ Some pages
        → fin.get (file_map pages) name.now ≡ Some file → count ≡ length file.pages
        → PutInto (file_map pages) name.now
        (put_in (pages_free (file_map pages)) file (pos n) page.now.0)
        (A.pages files.old.area) result (A.pages files.new.area) }
    ensures sound { files.new.sound ≡ stays_sound result }
    ensures cause { FaultsOnly (A.faults files.old.area) (A.faults files.new.area) result }
{
    if n == count + 1 {
        return append(files, name, page);
    }
    files.replace(name, n, page)
}

// Puts a page behind a file, if the files leave enough pages free.
fn append<A: Area>(files: &mut FileArea<A>, name: &Ident, page: &Page) -> Result<(), FileFault>
    requires { IsTrue files.old.sound }
    ensures put { (pages : List (List ℕ)) (file : File) → A.pages files.old.area ≡ Some pages
        → fin.get (file_map pages) name.now ≡ Some file
        → PutInto (file_map pages) name.now
        (put_in (pages_free (file_map pages)) file (pos (length file.pages + 1)) page.now.0)
        (A.pages files.old.area) result (A.pages files.new.area) }
    ensures sound { files.new.sound ≡ stays_sound result }
    ensures cause { FaultsOnly (A.faults files.old.area) (A.faults files.new.area) result }
{
    let _free = files.free_pages();
    files.append(name, page)
}

/// LENGTH: how many pages a file has.
pub fn length_of<A: Area>(files: &mut FileArea<A>, name: &Ident) -> Result<SysReply, FileFault>
    requires { IsTrue files.old.sound }
    ensures told { (pages : List (List ℕ)) → A.pages files.old.area ≡ Some pages
        → IfOk result (λ reply. OfFile measures name.now (file_map pages) reply) }
    ensures fits { (f : ℤ) → IfOk result (λ reply. Fits (calls.Length f) reply) }
    ensures left { A.pages files.new.area ≡ A.pages files.old.area }
    ensures refusals { IfErr result (λ fault. fault ≡ DiskFault) }
    ensures sound { files.new.sound ≡ stays_sound result }
    ensures cause { FaultsOnly (A.faults files.old.area) (A.faults files.new.area) result }
{
    match find(files, name) {
        Ok(Some(info)) => Ok(SysReply::Length(info.pages as i16)),
        Ok(None) => Ok(SysReply::CallError),
        Err(fault) => Err(fault),
    }
}

/// LOOKUP: the kind of the file that an array names.
pub fn look_up<A: Area>(
    files: &mut FileArea<A>,
    name: &[i16; IDENT_LENGTH],
) -> Result<SysReply, FileFault>
    requires { IsTrue files.old.sound }
    ensures told { (pages : List (List ℕ)) → A.pages files.old.area ≡ Some pages
        → (own : Own)
        → IfOk result (λ reply. AnswersBy (file_map pages) (calls.Lookup name.now) own reply own) }
    ensures fits { IfOk result (λ reply. Fits (calls.Lookup name.now) reply) }
    ensures left { A.pages files.new.area ≡ A.pages files.old.area }
    ensures refusals { IfErr result (λ fault. fault ≡ DiskFault) }
    ensures sound { files.new.sound ≡ stays_sound result }
    ensures cause { FaultsOnly (A.faults files.old.area) (A.faults files.new.area) result }
{
    let name = match Ident::of_words(name) {
        Some(name) => name,
        None => return Ok(SysReply::Found {
            kind: 0,
            found: false,
        }),
    };
    match find(files, &name) {
        Ok(Some(info)) => Ok(SysReply::Found {
            kind: kind_number(info.kind),
            found: true,
        }),
        Ok(None) => Ok(SysReply::Found {
            kind: 0,
            found: false,
        }),
        Err(fault) => Err(fault),
    }
}

// The number by which a program is told a kind.
fn kind_number(kind: FileKind) -> i16
    ensures { result ≡ pos (kind_number kind) }
{
    match kind {
        FileKind::Scratch => 1,
        FileKind::Ascii => 2,
        FileKind::SeqCode => 3,
        FileKind::ConCode => 4,
    }
}
