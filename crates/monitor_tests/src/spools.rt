ghost use Rattle.std.specs.Prelude.{◌≡◌, ◌<◌, ◌≤◌, false};
ghost use Rattle.solo_base.specs.declared.outcome.Side.TheVariants.{Sender, Receiver};
ghost use Rattle.queue_var.specs.Sides.{MayEnter, nobody, entered, continued, has_stopped};

use crate::running_spools::failing_area;
use disk_spool::{Await, Fetched, Spool};
use solo_base::{Page, Side};
use solo_devices::{Area, BlankArea, Moved, SureArea};
use std::alloc::Global;
use std::process::Abort;

const SENDER: u8 = 1;

const RECEIVER: u8 = 2;

// A page of this byte. Every third one is marked as a last page.
fn page_of(byte: u8) -> Page {
    let mut page = Page([byte; 512]);
    page.0[2] = if byte % 3 == 0 { 1 } else { 0 };
    page
}

fn crosses<T: Send>(value: T) -> T
    ensures { result ≡ value }
{
    value
}

// A spool crosses threads where its area does.
fn crosses_threads<A: Area + Send>(spool: Spool<A>) -> Spool<A>
    ensures { result ≡ spool }
{
    crosses(spool)
}

fn send<A: Area>(rt: &impl Abort, spool: &mut Spool<A>, byte: u8)
    requires { spool.old.sides ≡ nobody }
    ensures { spool.new.sides ≡ nobody }
{
    assert!(rt; spool.await_room(SENDER) == Await::Ready);
    assert!(rt; spool.put(&page_of(byte)) == Moved::Done);
}

fn receive<A: Area>(rt: &impl Abort, spool: &mut Spool<A>, byte: u8)
    requires may_enter { MayEnter spool.old.sides Receiver 2 }
    requires not_stopped { has_stopped spool.old.sides Receiver ≡ false }
    ensures { spool.new.sides ≡ continued (entered spool.old.sides Receiver) Sender }
{
    let mut page = Page([0; 512]);
    let last = byte % 3 == 0;
    assert!(rt; spool.await_item(RECEIVER) == Await::Ready);
    assert!(rt; spool.take(&mut page) == Fetched::Done { last });
    assert!(rt; page.0[511] == byte);
}

// A put fails, and the same one is made again.
fn send_twice<A: Area>(rt: &impl Abort, spool: &mut Spool<A>, byte: u8)
    requires { spool.old.sides ≡ nobody }
    ensures { spool.new.sides ≡ nobody }
{
    assert!(rt; spool.await_room(SENDER) == Await::Ready);
    assert!(rt; spool.put(&page_of(byte)) == Moved::Failed);
    assert!(rt; spool.put(&page_of(byte)) == Moved::Done);
}

// A take fails, and the same one is made again.
fn receive_twice<A: Area>(rt: &impl Abort, spool: &mut Spool<A>, byte: u8)
    requires { spool.old.sides ≡ nobody }
    ensures { spool.new.sides ≡ nobody }
{
    let mut page = Page([0; 512]);
    let last = byte % 3 == 0;
    assert!(rt; spool.await_item(RECEIVER) == Await::Ready);
    assert!(rt; spool.take(&mut page) == Fetched::Failed);
    assert!(rt; spool.take(&mut page) == Fetched::Done { last });
    assert!(rt; page.0[511] == byte);
}

// A spool of so many pages, at which no call fails.
fn spool_of(rt: &impl Abort, alloc: Global, pages: u16) -> Spool<SureArea>
    requires { (0 < pages) × (pages ≤ 256) }
    ensures { result.sides ≡ nobody }
{
    let area = SureArea::new(alloc, pages).ok().expect(rt, "ample memory");
    Spool::make(area)
}

// One page goes through, so that the pages lie around the ring's end, and then all places are filled and emptied.
fn three_times_round(rt: &impl Abort, alloc: Global, pages: u16)
    requires { (0 < pages) × (pages ≤ 256) }
{
    let mut spool = spool_of(rt, alloc, pages);
    send(rt, &mut spool, 9);
    receive(rt, &mut spool, 9);
    for _ in 0..3 {
        for number in 0..pages {
            send(rt, &mut spool, (number % 256) as u8);
        }
        for number in 0..pages {
            receive(rt, &mut spool, (number % 256) as u8);
        }
    }
}

#[test]
fn a_spool_of_one_page_is_filled_and_emptied(rt: HostRuntime) {
    three_times_round(&rt, rt.alloc(), 1);
}

#[test]
fn a_spool_of_two_pages_is_filled_and_emptied(rt: HostRuntime) {
    three_times_round(&rt, rt.alloc(), 2);
}

#[test]
fn a_spool_of_256_pages_is_filled_and_emptied(rt: HostRuntime) {
    three_times_round(&rt, rt.alloc(), 256);
}

#[test]
fn a_full_spool_delays_its_sender_until_the_take(rt: HostRuntime) {
    let mut spool = spool_of(&rt, rt.alloc(), 1);
    send(&rt, &mut spool, 6);
    assert!(rt; spool.await_room(SENDER) == Await::Delayed);
    receive(&rt, &mut spool, 6);
    assert!(rt; spool.handed() == Some(SENDER));
    assert!(rt; spool.await_room(SENDER) == Await::Ready);
    assert!(rt; spool.handed() == None);
}

#[test]
fn a_failed_call_is_made_again(rt: HostRuntime) {
    let mut spool = Spool::make(failing_area(&rt, rt.alloc(), 2, &[1], &[2]));
    send(&rt, &mut spool, 4);
    send_twice(&rt, &mut spool, 6);
    receive_twice(&rt, &mut spool, 4);
    receive(&rt, &mut spool, 6);
    assert!(rt; spool.into_inner().faults() == 2);
}

#[test]
fn what_was_put_before_the_stop_is_still_taken(rt: HostRuntime) {
    let mut spool = spool_of(&rt, rt.alloc(), 2);
    send(&rt, &mut spool, 1);
    spool.stop(Side::Sender);
    receive(&rt, &mut spool, 1);
    assert!(rt; spool.await_item(RECEIVER) == Await::Stopped);
    assert!(rt; spool.stopped_by() == Some(Side::Sender));
}

#[test]
fn a_stop_of_the_receiver_wakes_the_sender_that_waits(rt: HostRuntime) {
    let mut spool = spool_of(&rt, rt.alloc(), 1);
    send(&rt, &mut spool, 1);
    assert!(rt; spool.await_room(SENDER) == Await::Delayed);
    spool.stop(Side::Receiver);
    assert!(rt; spool.admits(SENDER) && !spool.admits(RECEIVER));
    assert!(rt; spool.await_room(SENDER) == Await::Stopped);
    assert!(rt; spool.stopped_by() == Some(Side::Receiver));
}

#[test]
fn a_mark_is_never_read_from_the_area(rt: HostRuntime) {
    let mut spool = crosses_threads(Spool::make(BlankArea::new(1)));
    let mut page = Page([0; 512]);
    send(&rt, &mut spool, 6);
    assert!(rt; spool.await_item(RECEIVER) == Await::Ready);
    assert!(rt; spool.take(&mut page) == Fetched::Done { last: true });
    assert!(rt; page.0[2] == 0);
}
