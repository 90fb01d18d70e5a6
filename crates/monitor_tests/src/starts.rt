// Processes that come to a start, on threads.
use side_by_side::Start;
use std::sync::Wait;
use std::sync::atomic::{AtomicU64, Ordering};
use std::test::*;
use std::thread::{Threads, join};
use std::time::Duration;

// So long the last process keeps the others waiting.
const LATE_NANOSECONDS: u64 = 20_000_000;

// Comes, says so, and gives what it was told.
fn hears<R: Threads + Wait + Sync>(start: &Start, told: &AtomicU64, rt: &R) -> bool {
    let word = start.come(rt);
    told.fetch_add(1, Ordering::SeqCst);
    start.is_whole(&word)
}

// Comes late. Whether nobody was told before, and what it was told.
fn hears_last<R: Threads + Wait + Sync>(start: &Start, told: &AtomicU64, rt: &R) -> (bool, bool) {
    let late = AtomicU64::new(0);
    late.park_timeout(rt, 0, Duration::from_nanos(LATE_NANOSECONDS));
    let nobody = told.load(Ordering::SeqCst) == 0;
    (nobody, hears(start, told, rt))
}

#[test]
fn nobody_begins_before_the_last_has_come(rt: HostRuntime) {
    let start = &Start::new(3);
    let told = &AtomicU64::new(0);
    let (first, (second, (nobody, last))) = join(
        &rt,
        || hears(start, told, &rt),
        || join(
            &rt,
            || hears(start, told, &rt),
            || hears_last(start, told, &rt),
        ),
    );
    assert!(rt; nobody);
    assert!(rt; first && second && last);
    assert!(rt; told.load(Ordering::SeqCst) == 3);
}

#[test]
fn who_has_no_thread_stops_all(rt: HostRuntime) {
    let start = &Start::new(3);
    let told = &AtomicU64::new(0);
    let (first, was_new) = join(
        &rt,
        || hears(start, told, &rt),
        || start.refuse(&rt).is_ok(),
    );
    assert!(rt; was_new && !first);
    assert!(rt; start.refuse(&rt).is_err());
    assert!(rt; !hears(start, told, &rt));
    // The third to come tells nothing else.
    assert!(rt; !hears(start, told, &rt));
}
