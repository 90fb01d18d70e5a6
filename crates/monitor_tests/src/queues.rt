ghost use Rattle.std.specs.Prelude.{◌≡◌};
ghost use Rattle.solo_base.specs.declared.outcome.Side.TheVariants.{Receiver};
ghost use Rattle.queue_var.specs.Sides.{nobody, delayed, continued};

use queue_var::{Fifo, QueueVar, Sides, Stops};
use solo_base::Side::{Receiver, Sender};
use std::process::Abort;

/// What a process does at a FIFO.
#[derive(Clone, Copy)]
enum Move {
    Arrives,
    Departs,
}

#[test]
fn positions_go_around_in_order_of_arrival(rt: HostRuntime) {
    // who arrives gets the next of three positions, and who departs is the one that arrived first
    let table = [
        (Move::Departs, None),
        (Move::Arrives, Some(0)),
        (Move::Arrives, Some(1)),
        (Move::Departs, Some(0)),
        (Move::Arrives, Some(2)),
        (Move::Arrives, Some(0)),
        (Move::Arrives, None),
        (Move::Departs, Some(1)),
        (Move::Arrives, Some(1)),
        (Move::Departs, Some(2)),
        (Move::Departs, Some(0)),
        (Move::Departs, Some(1)),
        (Move::Departs, None),
        (Move::Arrives, Some(2)),
        (Move::Departs, Some(2)),
    ];
    let mut order = Fifo::<3>::new();
    for (does, position) in table {
        let given = match does {
            Move::Arrives if !order.full() => Some(order.arrival()),
            Move::Departs if !order.empty() => Some(order.departure()),
            _ => None,
        };
        assert!(rt; given == position);
    }
}

#[test]
fn the_first_stop_is_the_one_that_counts(rt: HostRuntime) {
    let table = [
        (Stops::Neither, Sender, Stops::One(Sender)),
        (Stops::Neither, Receiver, Stops::One(Receiver)),
        (Stops::One(Sender), Sender, Stops::One(Sender)),
        (Stops::One(Sender), Receiver, Stops::Both(Sender)),
        (Stops::One(Receiver), Sender, Stops::Both(Receiver)),
        (Stops::One(Receiver), Receiver, Stops::One(Receiver)),
        (Stops::Both(Sender), Receiver, Stops::Both(Sender)),
        (Stops::Both(Receiver), Sender, Stops::Both(Receiver)),
    ];
    for (before, side, after) in table {
        assert!(rt; before.with(side) == after);
    }
    let first = [
        (Stops::Neither, None),
        (Stops::One(Receiver), Some(Receiver)),
        (Stops::Both(Sender), Some(Sender)),
    ];
    for (stops, side) in first {
        assert!(rt; stops.first() == side);
    }
}

#[test]
fn a_queue_variable_holds_one_process_until_it_resumes(rt: HostRuntime) {
    let mut queue = QueueVar::new();
    assert!(rt; queue.empty());
    assert!(rt; queue.cont() == None);
    queue.delay(4);
    assert!(rt; !queue.empty());
    assert!(rt; queue.cont() == Some(4));
    assert!(rt; queue.cont() == Some(4));
    assert!(rt; queue.resume() == 4);
    assert!(rt; queue.empty());
}

// Process 2 waits for an item: process 1 may still enter, but no second receiver.
fn receiver_waits(rt: &impl Abort, sides: &mut Sides)
    requires { sides.old ≡ nobody }
    ensures { sides.new ≡ delayed nobody Receiver 2 }
{
    sides.enter(Receiver);
    sides.delay(Receiver, 2);
    assert!(rt; sides.waiting(Receiver) == Some(2));
    assert!(rt; sides.handed() == None);
    assert!(rt;
        sides.may_enter(Sender, 1) && !sides.may_enter(Receiver, 2) && !sides.may_stop(Receiver)
    );
}

// Process 1 puts an item and hands the turn to process 2: only that one may enter.
fn sender_hands_over(rt: &impl Abort, sides: &mut Sides)
    requires { sides.old ≡ delayed nobody Receiver 2 }
    ensures { sides.new ≡ continued (delayed nobody Receiver 2) Receiver }
{
    sides.enter(Sender);
    sides.cont(Receiver);
    assert!(rt; sides.handed() == Some(2));
    assert!(rt; sides.may_enter(Receiver, 2) && !sides.may_enter(Sender, 1));
    assert!(rt; sides.admits(2) && !sides.admits(1) && !sides.may_stop(Sender));
}

// Process 2 resumes, and hands the turn to nobody.
fn receiver_resumes(rt: &impl Abort, sides: &mut Sides)
    requires { sides.old ≡ continued (delayed nobody Receiver 2) Receiver }
{
    sides.enter(Receiver);
    assert!(rt; sides.waiting(Receiver) == None);
    sides.cont(Sender);
    assert!(rt; sides.handed() == None);
}

#[test]
fn the_turn_goes_to_the_side_that_waits(rt: HostRuntime) {
    let mut sides = Sides::new();
    assert!(rt; sides.may_enter(Receiver, 2) && sides.admits(1) && sides.may_stop(Sender));
    receiver_waits(&rt, &mut sides);
    sender_hands_over(&rt, &mut sides);
    receiver_resumes(&rt, &mut sides);
    sides.stop(Receiver);
    sides.stop(Sender);
    assert!(rt; sides.stopped_by() == Some(Receiver));
}
