// What each of the five processes does, from its beginning to its end.

use crate::walks::{Trouble, first_other, listing_actions, put_action};
use batch_procs::{
    CardProc, CardWork, InputWork, JobProcWork, Lent, OutputProc, OutputWork, PrinterWork, Reply,
};
use deck_work::DeckWork;
use solo_base::Page;
use solo_devices::CardRead;
use std::alloc::Global;
use std::test::Fail;

const CARD: [(Trouble, &str); 5] = [
    (
        Trouble::None,
        "ReadCard|PutFeed HELLO|ReadCard|PutFeed end|Ended Done|",
    ),
    (
        Trouble::Stop(1),
        "ReadCard|PutFeed HELLO|Stop 1|Ended Stopped|",
    ),
    (
        Trouble::Stop(3),
        "ReadCard|PutFeed HELLO|ReadCard|PutFeed end|Stop 1|Ended Stopped|",
    ),
    (Trouble::Unread(0), "ReadCard|Stop 1|Ended ReadFault|"),
    (
        Trouble::Unread(2),
        "ReadCard|PutFeed HELLO|ReadCard|Stop 1|Ended ReadFault|",
    ),
];

#[test]
fn the_card_process_puts_each_card_before_it_reads_the_next(rt: HostRuntime) -> Result<(), Fail> {
    let other = first_other::<CardWork>(rt.alloc(), &[b"HELLO"], &CARD)?;
    assert_eq!(rt; other, None);
    Ok(())
}

// Whether the card process does so behind a read.
fn goes_on(alloc: Global, read: CardRead, want: &str) -> Result<bool, Fail> {
    let mut machine = CardProc::<DeckWork>::new(alloc);
    machine.give(Reply::Card(read))?;
    let mut text = Vec::new(alloc);
    put_action(&mut text, &machine.next())?;
    machine.give(Reply::Done)?;
    put_action(&mut text, &machine.next())?;
    Ok(text.as_slice() == want.as_bytes())
}

#[test]
fn a_deck_that_fails_stops_the_line_buffer(rt: HostRuntime) -> Result<(), Fail> {
    let alloc = rt.alloc();
    assert!(rt; goes_on(alloc, CardRead::Failed, "Stop 1|Ended ReadFault|")?);
    assert!(rt; goes_on(alloc, CardRead::Limit, "Stop 1|Ended DeckLimit|")?);
    assert!(rt; goes_on(alloc, CardRead::Spoiled, "PutFeed spoiled|ReadCard|")?);
    Ok(())
}

const INPUT: [(Trouble, &str); 5] = [
    (
        Trouble::None,
        "TakeFeed|TakeFeed|AwaitRoom|Request|PutPage 0 006 last|Release|Ended Done|",
    ),
    (Trouble::Stop(0), "TakeFeed|Stop 1|Stop 2|Ended Stopped|"),
    (
        Trouble::Stop(1),
        "TakeFeed|TakeFeed|Stop 1|Stop 2|Ended Stopped|",
    ),
    (
        Trouble::Stop(2),
        "TakeFeed|TakeFeed|AwaitRoom|Stop 1|Stop 2|Ended Stopped|",
    ),
    (
        Trouble::Failure(4),
        "TakeFeed|TakeFeed|AwaitRoom|Request|PutPage 0 006 last|Release|Stop 1|Stop 2|\
          Ended DiskFault|",
    ),
];

#[test]
fn the_input_process_asks_for_the_disk_once_there_is_room(rt: HostRuntime) -> Result<(), Fail> {
    let other = first_other::<InputWork>(rt.alloc(), &[b"HELLO"], &INPUT)?;
    assert_eq!(rt; other, None);
    Ok(())
}

const JOB: [(Trouble, &str); 5] = [
    (
        Trouble::None,
        "AwaitItem|Request|TakePage|Release|Local|AwaitRoom|Request|PutPage 0 030 last|Release|\
          Ended Done|",
    ),
    (Trouble::Stop(0), "AwaitItem|Stop 2|Stop 3|Ended Stopped|"),
    (
        Trouble::Failure(2),
        "AwaitItem|Request|TakePage|Release|Stop 2|Stop 3|Ended DiskFault|",
    ),
    (
        Trouble::Stop(5),
        "AwaitItem|Request|TakePage|Release|Local|AwaitRoom|Stop 2|Stop 3|Ended Stopped|",
    ),
    (
        Trouble::Failure(7),
        "AwaitItem|Request|TakePage|Release|Local|AwaitRoom|Request|PutPage 0 030 last|Release|\
          Stop 2|Stop 3|Ended DiskFault|",
    ),
];

#[test]
fn the_job_process_works_behind_each_page(rt: HostRuntime) -> Result<(), Fail> {
    let other = first_other::<JobProcWork<DeckWork>>(
        rt.alloc(),
        &[b"#LIST A", b"HELLO", b"#END"],
        &JOB,
    )?;
    assert_eq!(rt; other, None);
    Ok(())
}

const LOADS: [(Trouble, &str); 3] = [
    (
        Trouble::None,
        "AwaitItem|Request|TakePage|Release|Request|Load PROG|Release|Request|Load OTHER|\
          Release|Local|AwaitRoom|Request|PutPage 0 034 last|Release|Ended Done|",
    ),
    (
        Trouble::Failure(5),
        "AwaitItem|Request|TakePage|Release|Request|Load PROG|Release|Stop 2|Stop 3|\
          Ended DiskFault|",
    ),
    (
        Trouble::Refusal(8),
        "AwaitItem|Request|TakePage|Release|Request|Load PROG|Release|Request|Load OTHER|\
          Release|Stop 2|Stop 3|Ended NoMemory|",
    ),
];

#[test]
fn the_job_process_loads_each_file_before_it_works(rt: HostRuntime) -> Result<(), Fail> {
    let other = first_other::<JobProcWork<DeckWork>>(
        rt.alloc(),
        &[b"#RUN A PROG", b"X", b"#RUN B OTHER"],
        &LOADS,
    )?;
    assert_eq!(rt; other, None);
    Ok(())
}

const TWO_PAGES: [(usize, &str); 2] = [
    (
        13,
        "AwaitItem|Request|TakePage|Release|Local|AwaitItem|Request|TakePage|Release|Local|\
          AwaitRoom|Request|PutPage 0 506|Release|Local|AwaitRoom|Request|PutPage 1 018 last|\
          Release|Ended Done|",
    ),
    (
        14,
        "AwaitItem|Request|TakePage|Release|Local|AwaitItem|Request|TakePage|Release|Local|\
          AwaitRoom|Request|PutPage 0 492|Release|Local|AwaitRoom|Request|PutPage 1 033 last|\
          Release|Ended Done|",
    ),
];

#[test]
fn a_listing_of_two_pages_goes_out_as_they_fill(rt: HostRuntime) -> Result<(), Fail> {
    for (columns, want) in TWO_PAGES {
        let text = listing_actions::<JobProcWork<DeckWork>>(rt.alloc(), columns)?;
        assert_eq!(rt; text.as_slice(), want.as_bytes());
    }
    Ok(())
}

const OUTPUT: [(Trouble, &str); 5] = [
    (
        Trouble::None,
        "AwaitItem|Request|TakePage|Release|PutFeed HELLO|PutFeed end|Ended Done|",
    ),
    (Trouble::Stop(0), "AwaitItem|Stop 3|Stop 4|Ended Stopped|"),
    (
        Trouble::Failure(2),
        "AwaitItem|Request|TakePage|Release|Stop 3|Stop 4|Ended DiskFault|",
    ),
    (
        Trouble::Stop(4),
        "AwaitItem|Request|TakePage|Release|PutFeed HELLO|Stop 3|Stop 4|Ended Stopped|",
    ),
    (
        Trouble::Stop(5),
        "AwaitItem|Request|TakePage|Release|PutFeed HELLO|PutFeed end|Stop 3|Stop 4|\
          Ended Stopped|",
    ),
];

#[test]
fn the_output_process_puts_the_lines_of_each_page(rt: HostRuntime) -> Result<(), Fail> {
    let other = first_other::<OutputWork>(rt.alloc(), &[b"HELLO"], &OUTPUT)?;
    assert_eq!(rt; other, None);
    Ok(())
}

#[test]
fn a_page_that_was_not_put_is_damaged(rt: HostRuntime) -> Result<(), Fail> {
    let mut machine = OutputProc::<DeckWork>::new(rt.alloc());
    machine.give(Reply::Done)?;
    machine.give(Reply::Done)?;
    let unwritten = Page([0; 512]);
    machine.give(Reply::Page {
        page: Lent::of(&unwritten),
        last: true,
    })?;
    let mut text = Vec::new(rt.alloc());
    for _ in 0..4 {
        put_action(&mut text, &machine.next())?;
        machine.give(Reply::Done)?;
    }
    assert_eq!(rt;
        text.as_slice(),
        b"Release|Stop 3|Stop 4|Ended Damaged 0 0 2|".as_slice()
    );
    Ok(())
}

const PRINTER: [(Trouble, &str); 5] = [
    (Trouble::None, "TakeFeed|Print HELLO|TakeFeed|Ended Done|"),
    (Trouble::Stop(0), "TakeFeed|Stop 4|Ended Stopped|"),
    (
        Trouble::Failure(1),
        "TakeFeed|Print HELLO|Stop 4|Ended PrintFault|",
    ),
    (
        Trouble::Refusal(1),
        "TakeFeed|Print HELLO|Stop 4|Ended NoMemory|",
    ),
    (
        Trouble::Stop(2),
        "TakeFeed|Print HELLO|TakeFeed|Stop 4|Ended Stopped|",
    ),
];

#[test]
fn the_printer_process_prints_each_line(rt: HostRuntime) -> Result<(), Fail> {
    let other = first_other::<PrinterWork>(rt.alloc(), &[b"HELLO"], &PRINTER)?;
    assert_eq!(rt; other, None);
    Ok(())
}
