// The lines that answer a command.
ghost use Rattle.std.specs.Prelude.{◌≡◌, ◌≤◌, ◌+◌, ℕ, List, length, IsTrue};
ghost use Rattle.std.specs.List.{list_all};
ghost use Rattle.solo_base.specs.Line.{is_printable};
ghost use Rattle.solo_task.specs.Answers.{answer_line, fault_text};
ghost use Rattle.file_commands.specs.Settling.{change_line};

use crate::fault::CommandFault;
use disk_files::FileFault;
use solo_base::Line;

/// `COPY: OK`
pub fn answer_line(word: &[u8], how: &[u8]) -> Line
    requires room { length word.now + length how.now ≤ 40 }
    requires word_printable { IsTrue (list_all is_printable word.now) }
    requires printable { IsTrue (list_all is_printable how.now) }
    ensures { result ≡ answer_line word.now how.now }
{
    let mut line = Line::new();
    line.append(word);
    line.append(b": ");
    line.append(how);
    line
}

/// Why the files refuse.
fn fault_text(fault: FileFault) -> &'static [u8]
    ensures text { result.now ≡ fault_text fault }
    ensures short { length result.now ≤ 12 }
    ensures printable { IsTrue (list_all is_printable result.now) }
{
    match fault {
        FileFault::NoFile => b"NO FILE",
        FileFault::Exists => b"FILE EXISTS",
        FileFault::Protected => b"PROTECTED",
        FileFault::CatalogFull => b"CATALOG FULL",
        FileFault::FileFull => b"FILE FULL",
        FileFault::DiskFull => b"DISK FULL",
        _ => b"",
    }
}

/// What answers a command whose change of the files came to this.
pub fn answered(word: &[u8], change: Result<(), FileFault>) -> Result<Line, CommandFault>
    requires room { length word.now ≤ 20 }
    requires printable { IsTrue (list_all is_printable word.now) }
    ensures { result ≡ change_line word.now change }
{
    match change {
        Ok(()) => Ok(answer_line(word, b"OK")),
        Err(FileFault::DiskFault) => Err(CommandFault::DiskFault),
        Err(FileFault::NoMemory) => Err(CommandFault::NoMemory),
        Err(fault) => Ok(answer_line(word, fault_text(fault))),
    }
}
