ghost use Rattle.std.specs.Prelude.{◌≡◌, ℕ, List, Some, Err, IsTrue};
ghost use Rattle.disk_layout.specs.Files.{files as file_map};
ghost use Rattle.disk_files.specs.declared.fault.FileFault.TheVariants.{DiskFault};
ghost use Rattle.disk_files.specs.Answers.{FaultsOnly, after_reading};
ghost use Rattle.disk_contents.specs.Loading.{program_of};
ghost use Rattle.disk_system.specs.Loading.{FindsSo, load_failed};

use crate::{SystemFault, load_code};
use disk_contents::Loaded;
use disk_files::{FileArea, FileFault};
use solo_base::Ident;
use solo_devices::Area;
use std::alloc::Global;

/// Why it isn't known what a job finds of its program.
#[derive(Clone, Copy, Debug, PartialEq, Eq)]
pub enum LoadFault {
    /// A read of the area failed.
    DiskFault,
    NoMemory,
}

/// The program of a job: the code of the file, or why there is none.
pub fn load_job<A: Area>(
    alloc: Global,
    file: &Ident,
    files: &mut FileArea<A>,
) -> Result<Loaded, LoadFault>
    requires { IsTrue files.old.sound }
    ensures found { (pages : List (List ℕ)) → A.pages files.old.area ≡ Some pages
        → FindsSo result (program_of (file_map pages) file.now) }
    ensures left { A.pages files.new.area ≡ A.pages files.old.area }
    ensures after { files.new ≡ after_reading files.old files.new.area (load_failed result) }
    ensures cause { FaultsOnly (A.faults files.old.area) (A.faults files.new.area) (load_failed result) }
{
    match load_code(alloc, files, file) {
        Ok(code) => Ok(Loaded::Code(code)),
        Err(SystemFault::File(FileFault::NoFile)) => Ok(Loaded::NoFile),
        Err(SystemFault::NotCode) => Ok(Loaded::NotCode),
        Err(SystemFault::BadCode { at }) => Ok(Loaded::BadCode { at }),
        Err(SystemFault::File(FileFault::DiskFault)) => Err(LoadFault::DiskFault),
        Err(_) => Err(LoadFault::NoMemory),
    }
}
