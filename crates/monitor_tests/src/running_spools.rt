// Two processes, each in its own thread, with a spool and the disk between them.
ghost use Rattle.std.specs.Prelude.{◌≡◌, ◌<◌, ◌≤◌, [], false};
ghost use Rattle.resource_mon.specs.Seats.{IsIdle};
ghost use Rattle.disk_spool.specs.Calls.{has_stop};
ghost use Rattle.disk_spool.specs.Ends.{known};

use disk_spool::{Fetched, SpoolGate, SpoolMet, SpoolRecv, SpoolSend, meet};
use resource_mon::{DiskResource, DiskSeat};
use solo_base::{Page, Side};
use solo_devices::{Area, MemArea, Moved};
use std::alloc::Global;
use std::process::Abort;
use std::sync::Wait;
use std::test::*;
use std::thread::{Threads, join};

const PAGES: u32 = 10_000;

// Awaits room and puts a page, so many times, and then stops. Says how many puts failed.
fn send<A: Area + Send, R: Threads + Wait + Sync>(
    gate: &SpoolGate<A>,
    desk: &DiskResource,
    mut end: SpoolSend<A>,
    mut seat: DiskSeat,
    pages: u32,
    rt: &R,
) -> (SpoolSend<A>, DiskSeat, u32)
    requires end { (end.gate ≡ known (A.size gate.now.area) gate.now) × (has_stop end.calls ≡ false) }
    requires seat { IsIdle desk.now seat }
    ensures end { result.0.gate ≡ end.gate }
    ensures seat { (result.1.gate ≡ seat.gate) × (result.1.number ≡ seat.number) × (result.1.joined ≡ []) }
{
    let mut sent = 0;
    for number in 0..pages {
        let Ok(()) = end.await_room(gate, rt) else {
            break;
        };
        let page = Page([(number % 251) as u8; 512]);
        let pass = desk.request(&mut seat, rt);
        let answer = end.put(gate, &pass, &page, rt);
        desk.release(&mut seat, pass, rt);
        if answer == Moved::Done {
            sent = number;
        }
    }
    end.stop(gate, rt);
    (end, seat, sent)
}

// Awaits a page and takes it, at most so many times, and then stops. Says how many came in their places.
fn receive<A: Area + Send, R: Threads + Wait + Sync>(
    gate: &SpoolGate<A>,
    desk: &DiskResource,
    mut end: SpoolRecv<A>,
    mut seat: DiskSeat,
    pages: u32,
    rt: &R,
) -> (SpoolRecv<A>, DiskSeat, u32)
    requires end { (end.gate ≡ known (A.size gate.now.area) gate.now) × (has_stop end.calls ≡ false) }
    requires seat { IsIdle desk.now seat }
    ensures end { result.0.gate ≡ end.gate }
    ensures seat { (result.1.gate ≡ seat.gate) × (result.1.number ≡ seat.number) × (result.1.joined ≡ []) }
{
    let mut in_place = 0;
    let mut page = Page([0; 512]);
    for number in 0..pages {
        let Ok(()) = end.await_item(gate, rt) else {
            break;
        };
        let pass = desk.request(&mut seat, rt);
        let answer = end.take(gate, &pass, &mut page, rt);
        desk.release(&mut seat, pass, rt);
        in_place = counted(in_place, answer, page.0[511] == (number % 251) as u8);
    }
    end.stop(gate, rt);
    (end, seat, in_place)
}

fn counted(in_place: u32, answer: Fetched, same: bool) -> u32 {
    match answer {
        Fetched::Done { last: _ } if same => in_place.saturating_add(1),
        _ => in_place,
    }
}

fn side_by_side<A: Area + Send, R: Threads + Wait + Sync>(
    gate: &SpoolGate<A>,
    desk: &DiskResource,
    ends: (SpoolSend<A>, SpoolRecv<A>),
    seats: (DiskSeat, DiskSeat),
    pages: (u32, u32),
    rt: &R,
) -> ((SpoolSend<A>, DiskSeat, u32), (SpoolRecv<A>, DiskSeat, u32))
    requires sender { (ends.0.gate ≡ known (A.size gate.now.area) gate.now) × (has_stop ends.0.calls ≡ false) }
    requires receiver { (ends.1.gate ≡ known (A.size gate.now.area) gate.now) × (has_stop ends.1.calls ≡ false) }
    requires seats { IsIdle desk.now seats.0 × IsIdle desk.now seats.1 }
    ensures sender { result.0.0.gate ≡ ends.0.gate }
    ensures receiver { result.1.0.gate ≡ ends.1.gate }
    ensures first { (result.0.1.gate ≡ seats.0.gate) × (result.0.1.number ≡ seats.0.number) × (result.0.1.joined ≡ []) }
    ensures second { (result.1.1.gate ≡ seats.1.gate) × (result.1.1.number ≡ seats.1.number) × (result.1.1.joined ≡ []) }
{
    let (sender, receiver) = ends;
    let (first, second) = seats;
    let (sent, taken) = pages;
    join(
        rt,
        move || -> (SpoolSend<A>, DiskSeat, u32)
            requires end { (sender.gate ≡ known (A.size gate.now.area) gate.now) × (has_stop sender.calls ≡ false) }
            requires seat { IsIdle desk.now first }
            ensures end { result.0.gate ≡ sender.gate }
            ensures seat { (result.1.gate ≡ first.gate) × (result.1.number ≡ first.number) × (result.1.joined ≡ []) }
        { send(gate, desk, sender, first, sent, rt) },
        move || -> (SpoolRecv<A>, DiskSeat, u32)
            requires end { (receiver.gate ≡ known (A.size gate.now.area) gate.now) × (has_stop receiver.calls ≡ false) }
            requires seat { IsIdle desk.now second }
            ensures end { result.0.gate ≡ receiver.gate }
            ensures seat { (result.1.gate ≡ second.gate) × (result.1.number ≡ second.number) × (result.1.joined ≡ []) }
        { receive(gate, desk, receiver, second, taken, rt) },
    )
}

// Runs a spool on an area between two processes: how many pages came in their places, and what is left.
fn run<R: Threads + Wait + Sync + Abort>(
    rt: &R,
    alloc: Global,
    area: MemArea,
    pages: (u32, u32),
) -> (u32, SpoolMet<MemArea>)
    requires some { 0 < ⟦<MemArea as Area>⟧.size area }
    requires few { ⟦<MemArea as Area>⟧.size area ≤ 256 }
{
    let (desk, mut seats) = DiskResource::make(alloc, 2).expect(rt, "memory");
    let second = seats.pop().unwrap();
    let first = seats.pop().unwrap();
    let Ok((gate, sender, receiver)) = SpoolGate::make(alloc, area) else {
        panic!(rt; "memory")
    };
    let ((sender, mut all, _sent), (receiver, other, in_place)) = side_by_side(
        &gate,
        &desk,
        (sender, receiver),
        (first, second),
        pages,
        rt,
    );
    desk.join(&mut all, other);
    desk.close(all);
    (in_place, meet(gate, sender, receiver))
}

/// An area of so many pages whose reads and writes with these numbers fail, counted from 1.
pub fn failing_area(
    rt: &impl Abort,
    alloc: Global,
    size: u16,
    reads: &[u64],
    writes: &[u64],
) -> MemArea
    ensures { ⟦<MemArea as Area>⟧.size result ≡ size }
{
    let reads = reads.to_vec(alloc).ok().expect(rt, "memory");
    let writes = writes.to_vec(alloc).ok().expect(rt, "memory");
    let area = MemArea::new(alloc, size, reads, writes);
    area.ok().expect(rt, "memory")
}

// An area of so many pages at which no call fails.
fn sure_area(rt: &impl Abort, alloc: Global, size: u16) -> MemArea
    ensures { ⟦<MemArea as Area>⟧.size result ≡ size }
{
    failing_area(rt, alloc, size, &[], &[])
}

// Ten thousand pages pass a spool of so many.
fn ten_thousand_pages<R: Threads + Wait + Sync + Abort>(rt: &R, alloc: Global, size: u16)
    requires { (0 < size) × (size ≤ 256) }
{
    let area = sure_area(rt, alloc, size);
    let (in_place, met) = run(rt, alloc, area, (PAGES, PAGES));
    assert!(rt; in_place == PAGES && met.left == 0);
}

#[test]
fn ten_thousand_pages_pass_spools_of_each_size(rt: HostRuntime) {
    ten_thousand_pages(&rt, rt.alloc(), 1);
    ten_thousand_pages(&rt, rt.alloc(), 2);
    ten_thousand_pages(&rt, rt.alloc(), 256);
}

// So many pages are put and so many taken, and the side that comes to its end first has stopped the spool.
fn stopped_by<R: Threads + Wait + Sync + Abort>(
    rt: &R,
    alloc: Global,
    pages: (u32, u32),
) -> Option<Side> {
    let area = sure_area(rt, alloc, 2);
    let (in_place, met) = run(rt, alloc, area, pages);
    assert!(rt; in_place == 100);
    met.stopped_by
}

#[test]
fn each_side_is_told_that_the_other_stopped(rt: HostRuntime) {
    let sender = stopped_by(&rt, rt.alloc(), (100, PAGES));
    assert!(rt; sender == Some(Side::Sender));
    let receiver = stopped_by(&rt, rt.alloc(), (PAGES, 100));
    assert!(rt; receiver == Some(Side::Receiver));
}

#[test]
fn an_area_that_fails_at_listed_calls_comes_back_with_its_count(rt: HostRuntime) {
    let area = failing_area(&rt, rt.alloc(), 4, &[3], &[5, 7]);
    let (in_place, met) = run(&rt, rt.alloc(), area, (50, 50));
    assert!(rt; in_place < 50 && met.area.faults() == 3);
}
