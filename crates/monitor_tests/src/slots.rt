use slot_buffer::*;
use solo_base::Side;

#[test]
fn a_full_buffer_delays_its_sender_until_the_take(rt: HostRuntime) {
    let mut buffer: SlotBuffer<u8> = SlotBuffer::new();
    assert!(rt; buffer.put(1, 10) == Put::Done);
    assert!(rt; buffer.put(1, 20) == Put::Delayed(20));
    assert!(rt; buffer.take(2) == Take::Item(10));
    assert!(rt; buffer.handed() == Some(1));
    assert!(rt; buffer.put(1, 20) == Put::Done);
    assert!(rt; buffer.take(2) == Take::Item(20));
}

#[test]
fn a_stop_of_the_sender_wakes_the_receiver_that_waits(rt: HostRuntime) {
    let mut buffer = LineBuffer::new();
    assert!(rt; matches!(buffer.take(2), Take::Delayed));
    buffer.stop(Side::Sender);
    assert!(rt; buffer.admits(2) && !buffer.admits(1));
    assert!(rt; matches!(buffer.take(2), Take::Stopped));
    assert!(rt; buffer.stopped_by() == Some(Side::Sender));
}

#[test]
fn a_stop_of_the_receiver_wakes_the_sender_that_waits(rt: HostRuntime) {
    let mut buffer: SlotBuffer<u8> = SlotBuffer::new();
    assert!(rt; buffer.put(1, 5) == Put::Done);
    assert!(rt; buffer.put(1, 5) == Put::Delayed(5));
    buffer.stop(Side::Receiver);
    assert!(rt; buffer.handed() == Some(1));
    assert!(rt; buffer.put(1, 5) == Put::Stopped(5));
}

#[test]
fn what_was_put_before_the_stop_is_still_taken(rt: HostRuntime) {
    let mut buffer: SlotBuffer<u8> = SlotBuffer::new();
    assert!(rt; buffer.put(1, 10) == Put::Done);
    buffer.stop(Side::Sender);
    assert!(rt; buffer.take(2) == Take::Item(10));
    assert!(rt; buffer.take(2) == Take::Stopped);
    buffer.stop(Side::Receiver);
    assert!(rt; buffer.stopped_by() == Some(Side::Sender));
}
