//! A running buffer with its two ends, and the running disk with its three seats.
ghost use Rattle.std.specs.Prelude.{◌≡◌, ◌<◌, ◌≤◌, IfOk, IfErr};
ghost use Rattle.batch_sides.specs.Begun.{IsFreshDisk, IsFreshLine, IsFreshSpool};
ghost use Rattle.batch_sides.specs.Met.{AreSeatsOf};

use disk_spool::{SpoolGate, SpoolMet, SpoolRecv, SpoolSend};
use resource_mon::{DiskResource, DiskSeat};
use slot_buffer::{RecvEnd, SendEnd, SlotGate};
use solo_base::{Feed, NoMemory};
use solo_devices::Area;
use std::alloc::Global;

/// A line buffer with its two ends.
pub(crate) struct RunningLine {
    pub gate: SlotGate<Feed>,
    pub sender: SendEnd<Feed>,
    pub receiver: RecvEnd<Feed>,
}

impl RunningLine {
    pub(crate) fn make(alloc: Global) -> Result<RunningLine, NoMemory>
        ensures { IfOk result IsFreshLine }
    {
        let (gate, sender, receiver) = SlotGate::make(alloc)?;
        Ok(RunningLine {
            gate,
            sender,
            receiver,
        })
    }

    /// Gets rid of a buffer that nobody has used.
    pub(crate) fn unmake(self)
        requires { IsFreshLine self }
    {
        let RunningLine {
            gate,
            sender,
            receiver,
        } = self;
        let _met = slot_buffer::meet(gate, sender, receiver);
    }
}

/// A spool with its two ends.
pub(crate) struct RunningSpool<A: Area + Send> {
    pub gate: SpoolGate<A>,
    pub sender: SpoolSend<A>,
    pub receiver: SpoolRecv<A>,
}

impl<A: Area + Send> RunningSpool<A> {
    pub(crate) fn make(alloc: Global, area: A) -> Result<RunningSpool<A>, (A, NoMemory)>
        requires some { 0 < A.size area }
        requires few { A.size area ≤ 256 }
        ensures made { IfOk result (λ spool.
            IsFreshSpool (A.size spool.gate.area) spool × (spool.gate.area ≡ area)) }
        ensures refused { IfErr result (λ back. back.0 ≡ area) }
    {
        match SpoolGate::make(alloc, area) {
            Ok((gate, sender, receiver)) => Ok(RunningSpool {
                gate,
                sender,
                receiver,
            }),
            Err(back) => Err(back),
        }
    }

    /// The area of a spool that nobody has used.
    pub(crate) fn unmake(self) -> A
        requires { IsFreshSpool (A.size self.gate.area) self }
        ensures { result ≡ self.gate.area }
    {
        let RunningSpool {
            gate,
            sender,
            receiver,
        } = self;
        let SpoolMet {
            area,
            left: _,
            stopped_by: _,
        } = disk_spool::meet(gate, sender, receiver);
        area
    }
}

/// The seats at the disk of the three processes that move pages.
pub struct Seats {
    pub input: DiskSeat,
    pub job: DiskSeat,
    pub output: DiskSeat,
}

/// The disk with its seats.
pub(crate) struct RunningDisk {
    pub disk: DiskResource,
    pub seats: Seats,
}

impl RunningDisk {
    pub(crate) fn make(alloc: Global) -> Result<RunningDisk, NoMemory>
        ensures { IfOk result IsFreshDisk }
    {
        let (disk, mut seats) = DiskResource::make(alloc, 3)?;
        let output = seats.pop().unwrap();
        let job = seats.pop().unwrap();
        let input = seats.pop().unwrap();
        Ok(RunningDisk {
            disk,
            seats: Seats { input, job, output },
        })
    }

    /// Ends the disk, once nobody has it.
    pub(crate) fn close(self)
        requires { AreSeatsOf self.disk self.seats }
    {
        let RunningDisk { disk, seats } = self;
        let Seats {
            input: mut all,
            job,
            output,
        } = seats;
        disk.join(&mut all, job);
        disk.join(&mut all, output);
        disk.close(all);
    }
}
