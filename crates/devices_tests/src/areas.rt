use crate::asking::{Ask, ask_all};
use solo_devices::{Area, BlankArea, HurtArea, MemArea, SureArea};
use std::alloc::Global;
use std::process::Abort;

/// An area of so many pages at which no call fails.
pub fn sure_area(rt: &impl Abort, alloc: Global, pages: u16) -> SureArea {
    SureArea::new(alloc, pages).ok().expect(rt, "ample memory")
}

/// Numbers of calls.
fn numbers(rt: &impl Abort, alloc: Global, calls: &[u64]) -> Vec<u64> {
    calls.to_vec(alloc).ok().expect(rt, "ample memory")
}

/// Asks all this of an area, and then so many calls have failed.
fn ask_listed(rt: &impl Abort, area: &mut MemArea, asks: &[Ask], faults: u64) {
    ask_all(rt, area, asks);
    assert!(rt; area.faults() == faults);
}

#[test]
fn a_listed_call_of_an_area_fails(rt: HostRuntime) {
    let alloc = rt.alloc();
    let (reads, writes) = (numbers(&rt, alloc, &[2]), numbers(&rt, alloc, &[1, 3]));
    let area = MemArea::new(alloc, 2, reads, writes);
    let mut area = area.ok().expect(&rt, "ample memory");
    let asks = [Ask::WriteFails(0), Ask::Writes(0, 7), Ask::WriteFails(1)];
    ask_listed(&rt, &mut area, &asks, 2);
    let asks = [Ask::Reads(1, 0), Ask::ReadFails(0), Ask::Reads(0, 7)];
    ask_listed(&rt, &mut area, &asks, 3);
}

#[test]
fn a_blank_area_reads_zero_pages(rt: HostRuntime) {
    let mut area = BlankArea::new(1);
    assert!(rt; area.size() == 1);
    ask_all(&rt, &mut area, &[Ask::Writes(0, 7), Ask::Reads(0, 0)]);
}

#[test]
fn one_read_of_a_hurt_area_gives_a_wrong_byte(rt: HostRuntime) {
    let mut area = HurtArea::new(sure_area(&rt, rt.alloc(), 2), 2, 511, 9);
    assert!(rt; area.size() == 2);
    ask_all(
        &rt,
        &mut area,
        &[
            Ask::Writes(1, 7),
            Ask::Reads(1, 7),
            Ask::ReadsHurt(1, 7, 9),
            Ask::Reads(1, 7),
        ],
    );
}
