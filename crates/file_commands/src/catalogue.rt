// The commands of the catalogue.
ghost use Rattle.std.specs.Prelude.{◌≡◌, ◌≤◌, ◌++◌, ℕ, List, Some, IsTrue, length, codes};
ghost use Rattle.std.specs.Fmt.{decimal};
ghost use Rattle.disk_layout.specs.Files.{files as file_map};
ghost use Rattle.disk_files.specs.Answers.{FaultsOnly, stays_sound};
ghost use Rattle.solo_task.specs.Doing.{lists, deletes, renames, protects};
ghost use Rattle.file_commands.specs.Faults.{of_command};
ghost use Rattle.file_commands.specs.Settling.{IsSettledSo, IsAnsweredSo};

use crate::answers::answered;
use crate::fault::{CommandFault, as_system_command};
use disk_files::FileArea;
use disk_system::list as list_files;
use solo_base::{Ident, Line, LineList};
use solo_devices::Area;
use std::alloc::Global;

/// `list`: a line for each file, and how many they are.
pub fn list<A: Area>(alloc: Global, files: &mut FileArea<A>) -> Result<LineList, CommandFault>
    requires { IsTrue files.old.sound }
    ensures told { (pages : List (List ℕ)) → A.pages files.old.area ≡ Some pages
        → IsSettledSo (lists (file_map pages)) pages result (A.pages files.new.area) }
    ensures sound { files.new.sound ≡ stays_sound (of_command result) }
    ensures cause { FaultsOnly (A.faults files.old.area) (A.faults files.new.area) (of_command result) }
{
    match list_files(alloc, files) {
        Ok(lines) => with_count(lines),
        Err(fault) => Err(as_system_command(fault)),
    }
}

// These lines, and behind them how many files there are.
fn with_count(lines: LineList) -> Result<LineList, CommandFault>
    ensures { CountBehind lines result }
{
    let mut lines = lines;
    let Ok(count) = u32::try_from(lines.len()) else {
        return Err(CommandFault::NoMemory);
    };
    match lines.push(&count_line(count)) {
        Ok(()) => Ok(lines),
        Err(_) => Err(CommandFault::NoMemory),
    }
}

ghost use Rattle.file_commands.specs.Counting.{count_line, CountBehind};

// `LIST: 2 FILES`
fn count_line(count: u32) -> Line
    ensures { result ≡ count_line count }
{
    let mut line = Line::new();
    line.append(b"LIST: ");
    line.append_number(count);
    line.append(b" FILES");
    line
}

/// `delete(name)`
pub fn delete<A: Area>(files: &mut FileArea<A>, name: &Ident) -> Result<Line, CommandFault>
    requires { IsTrue files.old.sound }
    ensures told { (pages : List (List ℕ)) → A.pages files.old.area ≡ Some pages
        → IsAnsweredSo (deletes (file_map pages) name.now) pages result (A.pages files.new.area) }
    ensures sound { files.new.sound ≡ stays_sound (of_command result) }
    ensures cause { FaultsOnly (A.faults files.old.area) (A.faults files.new.area) (of_command result) }
{
    answered(b"DELETE", files.delete(name))
}

/// `rename(old, new)`
pub fn rename<A: Area>(
    files: &mut FileArea<A>,
    old: &Ident,
    new: &Ident,
) -> Result<Line, CommandFault>
    requires { IsTrue files.old.sound }
    ensures told { (pages : List (List ℕ)) → A.pages files.old.area ≡ Some pages
        → IsAnsweredSo (renames (file_map pages) old.now new.now) pages result (A.pages files.new.area) }
    ensures sound { files.new.sound ≡ stays_sound (of_command result) }
    ensures cause { FaultsOnly (A.faults files.old.area) (A.faults files.new.area) (of_command result) }
{
    answered(b"RENAME", files.rename(old, new))
}

/// `protect(name, on)` and `protect(name, off)`
pub fn protect<A: Area>(
    files: &mut FileArea<A>,
    name: &Ident,
    on: bool,
) -> Result<Line, CommandFault>
    requires { IsTrue files.old.sound }
    ensures told { (pages : List (List ℕ)) → A.pages files.old.area ≡ Some pages
        → IsAnsweredSo (protects (file_map pages) name.now on) pages result (A.pages files.new.area) }
    ensures sound { files.new.sound ≡ stays_sound (of_command result) }
    ensures cause { FaultsOnly (A.faults files.old.area) (A.faults files.new.area) (of_command result) }
{
    answered(b"PROTECT", files.protect(name, on))
}
