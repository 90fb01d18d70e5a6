// What comes back from a part of a pipeline.
ghost use Rattle.std.specs.Prelude.{◌≡◌, [], List, IfErr};
ghost use Rattle.pipeline.specs.Came.{IsTold};
ghost use Rattle.pipeline.specs.Rows.{Comes, with_source, with_stage};

use crate::{Cause, Failed, Parcel, Sink};
use slot_buffer::{RecvEnd, SlotGate};
use solo_base::NoMemory;
use std::sync::Wait;
use std::thread::Threads;

/// What comes back from the part of a pipeline behind a buffer: the end that took from it, the sink, and
/// what was in
/// the way there.
pub(crate) struct Behind<I, Z> {
    pub(crate) taker: RecvEnd<Parcel<I>>,
    pub(crate) sink: Z,
    pub(crate) ended: Result<(), Cause>,
}

/// This part takes nothing, since the machine refused what it needs.
pub(crate) fn refused<I: Send + Drop, Z: Sink, R: Threads + Wait + Sync>(
    rt: &R,
    cause: Cause,
    sink: Z,
    front: &SlotGate<Parcel<I>>,
    mut taker: RecvEnd<Parcel<I>>,
) -> Behind<I, Z>
    requires gate { taker.gate ≡ front.now }
    requires begins { Z.took sink ≡ [] }
    requires cause { IsTold ⊥ ⊥ cause }
    ensures gate { result.taker.gate ≡ front.now }
    ensures comes { (gives : List I → List Z.Item)
        → Comes gives result.taker.calls (Z.took result.sink) result.ended }
    ensures told { IfErr result.ended (IsTold ⊥ (Z.failed result.sink)) }
{
    taker.stop(front, rt);
    Behind {
        taker,
        sink,
        ended: Err(cause),
    }
}

/// How a stage ended, and those behind it.
pub(crate) fn with_stage(
    stage: Result<(), NoMemory>,
    behind: Result<(), Cause>,
) -> Result<(), Cause>
    ensures { result ≡ with_stage stage behind }
{
    match stage {
        Ok(()) => behind,
        Err(NoMemory) => Err(Cause::NoMemory),
    }
}

/// How the first process ended, and those behind it.
pub(crate) fn with_source(
    source: Result<(), Failed>,
    behind: Result<(), Cause>,
) -> Result<(), Cause>
    ensures { result ≡ with_source source behind }
{
    match source {
        Ok(()) => behind,
        Err(Failed) => Err(Cause::Source),
    }
}
