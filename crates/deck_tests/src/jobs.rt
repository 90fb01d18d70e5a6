ghost use Rattle.std.specs.Prelude.{◌≡◌, false, is_some, IfOk, OnOk};
ghost use Rattle.batch_job.specs.Report.{is_of_file};

use batch_job::{JobStream, run_job};
use deck_format::{CardFault, CardFaultKind, Job};
use disk_system::Loaded;
use page_codec::{Packer, PageItems, Unpacker};
use pascal_compile::compile;
use solo_base::{Ident, Item, Line, LineList, Page};
use std::alloc::Global;
use std::process::Abort;
use std::test::Fail;

/// The lines that the job prints, which runs no file, each with a bar behind it.
fn printed(alloc: Global, job: Job) -> Result<Vec<u8>, Fail>
    requires { is_of_file job ≡ false }
{
    printed_with(alloc, job, None)
}

/// The same of a job whose file was loaded so, if it is one of a file.
fn printed_with(alloc: Global, job: Job, load: Option<Loaded>) -> Result<Vec<u8>, Fail>
    requires { is_some load ≡ is_of_file job }
{
    let lines = run_job(alloc, job, load)?;
    let mut text = Vec::new(alloc);
    for place in 0..lines.len() {
        text.extend_from_slice(lines.get(place).bytes())?;
        text.push(b'|')?;
    }
    Ok(text)
}

/// A list of two cards, the second one blank.
fn listing(alloc: Global, fault: Option<CardFault>) -> Result<Job, Fail>
    ensures { IfOk result (λ job. is_of_file job ≡ false) }
{
    let mut cards = LineList::new(alloc);
    cards.push(&Line::of(b"  HELLO").ok_or("a line")?)?;
    cards.push(&Line::new())?;
    let name = Ident::of(b"a").ok_or("a name")?;
    Ok(Job::List { name, cards, fault })
}

#[test]
fn a_listing_is_printed(rt: HostRuntime) -> Result<(), Fail> {
    let alloc = rt.alloc();
    let whole = printed(alloc, listing(alloc, None)?)?;
    assert_eq!(rt;
        whole.as_slice(),
        b"JOB A|  HELLO||A: LISTED 2 CARDS|".as_slice()
    );
    for (kind, last) in [
        (
            CardFaultKind::Spoiled,
            b"JOB A|  HELLO||A: SPOILED CARD 3|".as_slice(),
        ),
        (
            CardFaultKind::Control,
            b"JOB A|  HELLO||A: BAD CONTROL CARD 3|".as_slice(),
        ),
    ] {
        let fault = CardFault {
            kind,
            card: 3,
            in_input: false,
        };
        let text = printed(alloc, listing(alloc, Some(fault))?)?;
        assert_eq!(rt; text.as_slice(), last);
    }
    Ok(())
}

/// Cards, as a list of lines.
fn list(alloc: Global, cards: &[&[u8]]) -> Result<LineList, Fail> {
    let mut lines = LineList::new(alloc);
    for card in cards {
        lines.push(&Line::of(card).ok_or("a card")?)?;
    }
    Ok(lines)
}

#[test]
fn other_jobs_are_printed(rt: HostRuntime) -> Result<(), Fail> {
    let alloc = rt.alloc();
    let name = Ident::of(b"Abcdefghijkl").ok_or("a name")?;
    let run = Job::Run {
        name,
        file: name,
        input: LineList::new(alloc),
        fault: Some(CardFault {
            kind: CardFaultKind::Spoiled,
            card: 7,
            in_input: true,
        }),
    };
    let no_file = printed_with(alloc, run, Some(Loaded::NoFile))?;
    assert_eq!(rt;
        no_file.as_slice(),
        b"JOB ABCDEFGHIJKL|ABCDEFGHIJKL: NO FILE|ABCDEFGHIJKL: SPOILED CARD 7|".as_slice()
    );
    let run = Job::Run {
        name,
        file: name,
        input: LineList::new(alloc),
        fault: None,
    };
    let not_code = printed_with(alloc, run, Some(Loaded::NotCode))?;
    assert_eq!(rt;
        not_code.as_slice(),
        b"JOB ABCDEFGHIJKL|ABCDEFGHIJKL: NOT CODE|".as_slice()
    );
    for (count, want) in [
        (1, b"1 CARDS SKIPPED|".as_slice()),
        (10, b"10 CARDS SKIPPED|".as_slice()),
        (u32::MAX, b"4294967295 CARDS SKIPPED|".as_slice()),
    ] {
        let skipped = printed(alloc, Job::Skipped { count })?;
        assert_eq!(rt; skipped.as_slice(), want);
    }
    Ok(())
}

/// A program that prints the codes of three characters of its input.
const CODES: [&[u8]; 4] = [
    b"VAR C: CHAR;",
    b"BEGIN READ(C); WRITEINT(ORD(C));",
    b"READ(C); WRITE(' '); WRITEINT(ORD(C));",
    b"READ(C); WRITE(' '); WRITEINT(ORD(C)) END.",
];

#[test]
fn a_program_is_run_with_its_input(rt: HostRuntime) -> Result<(), Fail> {
    let alloc = rt.alloc();
    let name = Ident::of(b"R").ok_or("a name")?;
    for (in_input, want) in [
        (
            true,
            b"JOB R|90 10 25|R: TERMINATED|R: BAD CONTROL CARD 6|".as_slice(),
        ),
        (false, b"JOB R|R: BAD CONTROL CARD 6|".as_slice()),
    ] {
        let fault = CardFault {
            kind: CardFaultKind::Control,
            card: 6,
            in_input,
        };
        let job = Job::Pascal {
            name,
            limit: 100,
            program: list(alloc, &CODES)?,
            input: list(alloc, &[b"Z"])?,
            fault: Some(fault),
        };
        let text = printed(alloc, job)?;
        assert_eq!(rt; text.as_slice(), want);
    }
    Ok(())
}

/// The pages of a stream of these cards, two at most: the one before the last, and the last.
fn pages_of(cards: &[&[u8]]) -> Result<(Option<Page>, Page), Fail> {
    let mut packer = Packer::new();
    let mut first = None;
    for card in cards {
        let line = Line::of(card).ok_or("a card")?;
        let full = packer.push(&Item::Line(line));
        if full.is_some() && first.is_some() {
            return Err("more than two pages".into());
        }
        first = first.or(full);
    }
    Ok((first, packer.finish()))
}

/// The only page of a stream of these cards.
fn page_of(cards: &[&[u8]]) -> Result<Page, Fail> {
    match pages_of(cards)? {
        (None, page) => Ok(page),
        (Some(_), _) => Err("more than a page".into()),
    }
}

/// The items of the last page of a stream.
fn items_of(page: &Page) -> Result<PageItems, Fail> {
    match Unpacker::new().take(page, true) {
        Ok(items) => Ok(items),
        Err(_) => Err("a bad page".into()),
    }
}

/// The lines of a stream that is fed the only page of a deck.
fn lines_of(alloc: Global, stream: &mut JobStream, deck: &Page) -> Result<Vec<u8>, Fail> {
    feed(stream, deck)?;
    packed(alloc, stream)
}

#[test]
fn a_stream_gives_the_lines_of_its_jobs(rt: HostRuntime) -> Result<(), Fail> {
    let deck = page_of(&[
        b"X", b"#LIST A", b"HELLO", b"#LIST B", b"#BAD", b"Y", b"#JOB P", b"BEGIN", b"#END", b"Z",
    ])?;
    let mut stream = JobStream::new(rt.alloc());
    let text = lines_of(rt.alloc(), &mut stream, &deck);
    drop(stream);
    assert_eq!(rt;
        text?.as_slice(),
        b"1 CARDS SKIPPED|JOB A|HELLO|A: LISTED 1 CARDS|JOB B|B: BAD CONTROL CARD 1|\
          JOB P|P: SYNTAX ERROR IN LINE 2|1 CARDS SKIPPED|"
            .as_slice()
    );
    Ok(())
}

/// The lines that were packed, thirty at most, each with a bar behind it.
fn text_of(alloc: Global, packer: Packer) -> Result<Vec<u8>, Fail> {
    let mut lines = items_of(&packer.finish())?;
    let mut text = Vec::new(alloc);
    for _ in 0..30 {
        if let Some(Item::Line(line)) = lines.next() {
            text.extend_from_slice(line.bytes())?;
            text.push(b'|')?;
        }
    }
    Ok(text)
}

/// Feeds a stream the only page of a deck.
fn feed(stream: &mut JobStream, deck: &Page) -> Result<(), Fail> {
    stream.feed(items_of(deck)?)?;
    Ok(())
}

/// The lines of a stream that wants no file, which fit on a page, each with a bar behind it.
fn packed(alloc: Global, stream: &mut JobStream) -> Result<Vec<u8>, Fail> {
    let mut packer = Packer::new();
    if stream.wants().is_some() {
        return Err("a file is wanted".into());
    }
    let mut due = None;
    stream.pack(&mut packer, &mut due)?;
    if due.is_some() {
        return Err("more than a page".into());
    }
    text_of(alloc, packer)
}

/// Tells a stream that there is none of the files that it wants, ten at most.
fn load_none(stream: &mut JobStream) {
    for _ in 0..10 {
        if stream.wants().is_some() {
            stream.load(Loaded::NoFile);
        }
    }
}

/// The lines that a stream gives with a page of these cards, each with a bar behind it. There are no files.
fn streamed(
    alloc: Global,
    stream: &mut JobStream,
    unpacker: &mut Unpacker,
    page: &Page,
    last: bool,
) -> Result<Vec<u8>, Fail>
    requires { unpacker.old.ended ≡ false }
    ensures { OnOk result (unpacker.new.ended ≡ last) }
{
    match unpacker.take(page, last) {
        Ok(items) => stream.feed(items)?,
        Err(_) => return Err("a bad page".into()),
    }
    load_none(stream);
    packed(alloc, stream)
}

/// The two pages of a deck whose first program runs over their border.
fn long_deck() -> Result<(Page, Page), Fail> {
    let long = [b'D'; 80];
    let (first, last) = pages_of(&[
        b"#JOB COPY",
        b"VAR C: CHAR;",
        b"BEGIN READ(C); WHILE C <> EM DO BEGIN WRITE(C); READ(C) END END.",
        b"#DATA",
        b"ONE",
        &long,
        &long,
        &long,
        &long,
        b"#BAD",
        b"LOST",
        b"#RUN A PROG",
        b"X",
        b"#JOB BIG 100",
        b"VAR X: INTEGER; BEGIN X := 32767 + 1 END.",
        b"#LIST B",
        b"Y",
    ])?;
    Ok((first.ok_or("a full page")?, last))
}

/// The lines that a stream gives with each of two pages.
fn streamed_twice(
    alloc: Global,
    stream: &mut JobStream,
    first: &Page,
    last: &Page,
) -> Result<(Vec<u8>, Vec<u8>), Fail> {
    let mut unpacker = Unpacker::new();
    let text = streamed(alloc, stream, &mut unpacker, first, false)?;
    let rest = streamed(alloc, stream, &mut unpacker, last, true)?;
    Ok((text, rest))
}

#[test]
fn a_program_runs_while_its_cards_come(rt: HostRuntime) -> Result<(), Fail> {
    let (first, last) = long_deck()?;
    let mut stream = JobStream::new(rt.alloc());
    let came = streamed_twice(rt.alloc(), &mut stream, &first, &last);
    drop(stream);
    let (text, rest) = came?;
    assert!(rt; text.starts_with(b"JOB COPY|ONE|DDD"));
    assert!(rt;
        text.ends_with(b"|COPY: TERMINATED|COPY: BAD CONTROL CARD 9|JOB A|A: NO FILE|JOB BIG|")
    );
    assert_eq!(rt;
        rest.as_slice(),
        b"BIG: OVERFLOW IN LINE 1|JOB B|Y|B: LISTED 1 CARDS|".as_slice()
    );
    Ok(())
}

/// A program that copies its input.
const COPY: [&[u8]; 2] = [
    b"VAR C: CHAR;",
    b"BEGIN READ(C); WHILE C <> EM DO BEGIN WRITE(C); READ(C) END END.",
];

/// Whether the file of this name is wanted first.
fn is_wanted(stream: &JobStream, name: &[u8]) -> bool {
    match stream.wants() {
        Some(file) => *file.name() == *name,
        None => false,
    }
}

/// The lines of a stream over two files, of which this is loaded for the first, and a bad one for the second.
fn lines_of_files(
    rt: &impl Abort,
    alloc: Global,
    stream: &mut JobStream,
    deck: &Page,
    first: Loaded,
) -> Result<Vec<u8>, Fail> {
    assert!(rt; stream.wants().is_none());
    feed(stream, deck)?;
    assert!(rt; is_wanted(stream, b"PROG"));
    stream.load(first);
    assert!(rt; is_wanted(stream, b"OTHER"));
    stream.load(Loaded::BadCode { at: 3 });
    packed(alloc, stream)
}

#[test]
fn files_are_loaded_in_the_order_of_their_jobs(rt: HostRuntime) -> Result<(), Fail> {
    let alloc = rt.alloc();
    let deck = page_of(&[b"#RUN A PROG", b"HELLO", b"#RUN B OTHER", b"#BAD"])?;
    let code = match compile(alloc, &list(alloc, &COPY)?) {
        Ok(code) => code,
        Err(_) => return Err("no code".into()),
    };
    let mut stream = JobStream::new(alloc);
    let text = lines_of_files(&rt, alloc, &mut stream, &deck, Loaded::Code(code));
    drop(stream);
    assert_eq!(rt;
        text?.as_slice(),
        b"JOB A|HELLO|A: TERMINATED|JOB B|B: BAD CODE AT 3|B: BAD CONTROL CARD 1|".as_slice()
    );
    Ok(())
}
