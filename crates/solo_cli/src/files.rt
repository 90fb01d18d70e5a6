//! The commands on the area of the files alone.
ghost use Rattle.std.specs.Prelude.{◌≡◌, Some, IfSome};
ghost use Rattle.solo_devices.specs.Count.{Rose};
ghost use Rattle.run_report.specs.Told.{area_told};
ghost use Rattle.solo_cli.specs.Causes.{MayBeRefused};
ghost use Rattle.solo_cli.specs.Does.{Formats, MigratesFiles};

use crate::refusal::Refusal;
use crate::words::Command;
use solo_base::Cause;
use solo_devices::Area;
use std::alloc::Global;

/// Makes the area one without a file.
pub fn format<F: Area>(mut files: F) -> (Option<Refusal>, F)
    requires { F.size files ≡ 4288 }
    ensures formats { Formats (area_told F.Area files) (area_told F.Area result.1) result.0 }
    ensures known { IfSome result.0 (MayBeRefused (Some Command.Format)) }
    ensures disk { result.0 ≡ Some (Refusal.Fault Cause.DiskFault) →
        Rose (F.faults files) (F.faults result.1) }
    ensures size { F.size result.1 ≡ F.size files }
{
    match disk_system::format(&mut files) {
        Ok(()) => (None, files),
        Err(_) => (Some(Refusal::Fault(Cause::DiskFault)), files),
    }
}

/// Makes an area of format 1 one of format 2 with the same files; one of format 2 stays as it is.
pub fn migrate<F: Area>(alloc: Global, mut files: F) -> (Option<Refusal>, F)
    requires { F.size files ≡ 4288 }
    ensures migrates { MigratesFiles (area_told F.Area files) (area_told F.Area result.1) result.0 }
    ensures known { IfSome result.0 (MayBeRefused (Some Command.Migrate)) }
    ensures disk { result.0 ≡ Some (Refusal.Fault Cause.DiskFault) →
        Rose (F.faults files) (F.faults result.1) }
    ensures size { F.size result.1 ≡ F.size files }
{
    match disk_system::migrate(alloc, &mut files) {
        Ok(_) => (None, files),
        Err(fault) => (Some(Refusal::of_migration(fault)), files),
    }
}
