//! A process at the disk: its seat, and its pass while it has the disk.
ghost use Rattle.std.specs.Prelude.{◌≡◌, true, false, IsSome};
ghost use Rattle.batch_sides.specs.Desks.{IsAt};

use resource_mon::{DiskPass, DiskResource, DiskSeat};
use std::sync::Wait;
use std::thread::Threads;

/// Waits until the process has the disk.
pub(crate) fn request<R: Threads + Wait + Sync>(
    disk: &DiskResource,
    seat: &mut DiskSeat,
    pass: &mut Option<DiskPass>,
    rt: &R,
)
    requires { IsAt disk.now seat.old pass.old false }
    ensures { (seat.new.number ≡ seat.old.number) × IsAt disk.now seat.new pass.new true }
{
    match pass.replace(disk.request(seat, rt)) {
        None => {}
        Some(_) => unreachable!(),
    }
}

/// The pass of a process that has the disk.
pub(crate) fn held(pass: &Option<DiskPass>) -> &DiskPass
    requires { IsSome pass.now }
{
    match pass {
        Some(pass) => pass,
        None => unreachable!(),
    }
}

/// Gives the disk back.
pub(crate) fn release<R: Threads + Wait + Sync>(
    disk: &DiskResource,
    seat: &mut DiskSeat,
    pass: &mut Option<DiskPass>,
    rt: &R,
)
    requires { IsAt disk.now seat.old pass.old true }
    ensures { (seat.new.number ≡ seat.old.number) × IsAt disk.now seat.new pass.new false }
{
    match pass.take() {
        Some(pass) => disk.release(seat, pass, rt),
        None => unreachable!(),
    }
}
