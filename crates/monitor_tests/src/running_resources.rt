// Three processes, each in its own thread.
ghost use Rattle.std.specs.Prelude.{◌≡◌, []};
ghost use Rattle.resource_mon.specs.Seats.{IsIdle};

use resource_mon::*;
use std::process::Abort;
use std::sync::Wait;
use std::sync::atomic::{AtomicU64, Ordering};
use std::test::*;
use std::thread::{Threads, join};
use std::time::Duration;

const TURNS: u32 = 10_000;

// Takes the disk so many times, and says whether nobody else had it at any of them.
fn take_turns<R: Threads + Wait + Sync>(
    desk: &DiskResource,
    mut seat: DiskSeat,
    busy: &AtomicU64,
    rt: &R,
) -> (DiskSeat, bool)
    requires { IsIdle desk.now seat }
    ensures { (result.0.gate ≡ seat.gate) × (result.0.number ≡ seat.number) × (result.0.joined ≡ []) }
{
    let mut alone = true;
    for _ in 0..TURNS {
        let pass = desk.request(&mut seat, rt);
        let before = busy.swap(1, Ordering::SeqCst);
        alone = alone && before == 0;
        busy.store(0, Ordering::SeqCst);
        desk.release(&mut seat, pass, rt);
    }
    (seat, alone)
}

// Two processes side by side.
fn two_take_turns<R: Threads + Wait + Sync>(
    desk: &DiskResource,
    first: DiskSeat,
    second: DiskSeat,
    busy: &AtomicU64,
    rt: &R,
) -> ((DiskSeat, bool), (DiskSeat, bool))
    requires { IsIdle desk.now first × IsIdle desk.now second }
    ensures first { (result.0.0.gate ≡ first.gate) × (result.0.0.number ≡ first.number) × (result.0.0.joined ≡ []) }
    ensures second { (result.1.0.gate ≡ second.gate) × (result.1.0.number ≡ second.number) × (result.1.0.joined ≡ []) }
{
    join(
        rt,
        move || -> (DiskSeat, bool)
            requires { IsIdle desk.now first }
            ensures { (result.0.gate ≡ first.gate) × (result.0.number ≡ first.number) × (result.0.joined ≡ []) }
        { take_turns(desk, first, busy, rt) },
        move || -> (DiskSeat, bool)
            requires { IsIdle desk.now second }
            ensures { (result.0.gate ≡ second.gate) × (result.0.number ≡ second.number) × (result.0.joined ≡ []) }
        { take_turns(desk, second, busy, rt) },
    )
}

// Three processes side by side.
fn three_take_turns<R: Threads + Wait + Sync>(
    desk: &DiskResource,
    first: DiskSeat,
    second: DiskSeat,
    third: DiskSeat,
    busy: &AtomicU64,
    rt: &R,
) -> ((DiskSeat, bool), ((DiskSeat, bool), (DiskSeat, bool)))
    requires { IsIdle desk.now first × IsIdle desk.now second × IsIdle desk.now third }
    ensures first { (result.0.0.gate ≡ first.gate) × (result.0.0.number ≡ first.number) × (result.0.0.joined ≡ []) }
    ensures second { (result.1.0.0.gate ≡ second.gate) × (result.1.0.0.number ≡ second.number) × (result.1.0.0.joined ≡ []) }
    ensures third { (result.1.1.0.gate ≡ third.gate) × (result.1.1.0.number ≡ third.number) × (result.1.1.0.joined ≡ []) }
{
    join(
        rt,
        move || -> (DiskSeat, bool)
            requires { IsIdle desk.now first }
            ensures { (result.0.gate ≡ first.gate) × (result.0.number ≡ first.number) × (result.0.joined ≡ []) }
        { take_turns(desk, first, busy, rt) },
        move || -> ((DiskSeat, bool), (DiskSeat, bool))
            requires { IsIdle desk.now second × IsIdle desk.now third }
            ensures second { (result.0.0.gate ≡ second.gate) × (result.0.0.number ≡ second.number) × (result.0.0.joined ≡ []) }
            ensures third { (result.1.0.gate ≡ third.gate) × (result.1.0.number ≡ third.number) × (result.1.0.joined ≡ []) }
        { two_take_turns(desk, second, third, busy, rt) },
    )
}

// How far two processes are of which one is kept waiting for long.
const HELD: u64 = 1;

const CAME: u64 = 2;

// So long one of them keeps the disk, a hundred times what the other looks before it sleeps; so often it
// looks then whether the other came.
const LONG_NANOSECONDS: u64 = 20_000_000;

const MOST_LOOKS: u32 = 500;

// One of two is kept waiting for long.
fn kept_waiting<R: Threads + Wait + Sync + Abort>(
    desk: &DiskResource,
    first: DiskSeat,
    second: DiskSeat,
    stage: &AtomicU64,
    rt: &R,
) -> (DiskSeat, DiskSeat)
    requires { IsIdle desk.now first × IsIdle desk.now second }
    ensures first { (result.0.gate ≡ first.gate) × (result.0.number ≡ first.number)
        × (result.0.joined ≡ []) }
    ensures second { (result.1.gate ≡ second.gate) × (result.1.number ≡ second.number)
        × (result.1.joined ≡ []) }
{
    join(
        rt,
        move || -> DiskSeat
            requires { IsIdle desk.now first }
            ensures { (result.gate ≡ first.gate) × (result.number ≡ first.number)
                × (result.joined ≡ []) }
        { take_late(desk, first, stage, rt) },
        move || -> DiskSeat
            requires { IsIdle desk.now second }
            ensures { (result.gate ≡ second.gate) × (result.number ≡ second.number)
                × (result.joined ≡ []) }
        { keep_long(desk, second, stage, rt) },
    )
}

// Asks for the disk once the other has it.
fn take_late<R: Threads + Wait + Sync>(
    desk: &DiskResource,
    mut seat: DiskSeat,
    stage: &AtomicU64,
    rt: &R,
) -> DiskSeat
    requires { IsIdle desk.now seat }
    ensures { (result.gate ≡ seat.gate) × (result.number ≡ seat.number) × (result.joined ≡ []) }
{
    for _ in rt.forever() {
        if stage.load(Ordering::SeqCst) == HELD {
            break;
        }
        stage.park(rt, 0);
    }
    let pass = desk.request(&mut seat, rt);
    stage.store(CAME, Ordering::SeqCst);
    desk.release(&mut seat, pass, rt);
    seat
}

// Keeps the disk until the other sleeps, and gives it back. The other comes soon then.
fn keep_long<R: Threads + Wait + Sync + Abort>(
    desk: &DiskResource,
    mut seat: DiskSeat,
    stage: &AtomicU64,
    rt: &R,
) -> DiskSeat
    requires { IsIdle desk.now seat }
    ensures { (result.gate ≡ seat.gate) × (result.number ≡ seat.number) × (result.joined ≡ []) }
{
    let nap = Duration::from_nanos(LONG_NANOSECONDS);
    let pass = desk.request(&mut seat, rt);
    stage.store(HELD, Ordering::SeqCst);
    stage.wake_all();
    stage.park_timeout(rt, HELD as u32, nap);
    desk.release(&mut seat, pass, rt);
    for _ in 0..MOST_LOOKS {
        if stage.load(Ordering::SeqCst) == CAME {
            return seat;
        }
        stage.park_timeout(rt, HELD as u32, nap);
    }
    panic!(rt; "who slept at the gate was not woken")
}

#[test]
fn who_sleeps_is_woken(rt: HostRuntime) {
    let (desk, mut seats) = DiskResource::make(rt.alloc(), 2).expect(&rt, "memory");
    let second = seats.pop().unwrap();
    let first = seats.pop().unwrap();
    let stage = AtomicU64::new(0);
    let (mut first, second) = kept_waiting(&desk, first, second, &stage, &rt);
    desk.join(&mut first, second);
    desk.close(first);
}

#[test]
fn three_processes_take_the_disk_in_turn(rt: HostRuntime) {
    let (desk, mut seats) = DiskResource::make(rt.alloc(), 3).expect(&rt, "memory");
    let third = seats.pop().unwrap();
    let second = seats.pop().unwrap();
    let first = seats.pop().unwrap();
    let busy = AtomicU64::new(0);
    let (first, (second, third)) = three_take_turns(&desk, first, second, third, &busy, &rt);
    assert!(rt; first.1 && second.1 && third.1);
    let mut all = first.0;
    desk.join(&mut all, second.0);
    desk.join(&mut all, third.0);
    desk.close(all);
}
