ghost use Rattle.std.specs.Prelude.{◌≡◌, ◌<◌, true};

use crate::areas::sure_area;
use crate::asking::{Ask, ask_all};
use solo_base::{Line, NoMemory};
use solo_devices::{
    Area, CardRead, CardUnit, MemSink, MemSource, PrintFault, PrinterUnit, Sink, Source, SureSink,
    SureSource,
};
use std::alloc::Global;
use std::process::Abort;

/// Texts, and what a unit tells of them.
const TEXTS: [(&str, &str); 11] = [
    ("", ".."),
    ("#LIST A\nHELLO\n#END\n", "[#LIST A][HELLO][#END].."),
    ("A\r\nB \r\n  C  \n", "[A][B][  C].."),
    ("A\r\r\nB\n", "*[B].."),
    ("\n  \n\r\n", "[][][].."),
    ("A\nB", "[A][B].."),
    ("A\n\r", "[A][].."),
    ("A\tB\n~\x7f\n\x1f\n\u{80}", "****.."),
    ("A\rB\n", "*.."),
    ("\n", "[].."),
    (" ", "[].."),
];

/// Adds a card in brackets.
fn add_card(told: &mut Vec<u8>, card: &[u8]) -> Result<(), NoMemory> {
    told.push(b'[')?;
    told.extend_from_slice(card)?;
    told.push(b']')?;
    Ok(())
}

/// Adds what the unit answers: a card in brackets, a star where it is spoiled, and twice how it stops.
fn tell<S: Source>(unit: &mut CardUnit<S>, told: &mut Vec<u8>) -> Result<(), NoMemory>
    requires { unit.old.live ≡ true }
{
    for _ in 0..8u8 {
        match unit.read() {
            CardRead::Card(card) => add_card(told, card.bytes())?,
            CardRead::Spoiled => told.push(b'*')?,
            CardRead::End => told.push(b'.')?,
            CardRead::Failed => {
                told.push(b'!')?;
                return Ok(());
            }
            CardRead::Limit => {
                told.push(b'+')?;
                return Ok(());
            }
        }
        if told.as_slice().ends_with(b"..") {
            return Ok(());
        }
    }
    Ok(())
}

/// What a new unit over the source tells.
fn told_of<S: Source + Drop>(alloc: Global, source: S) -> Result<Vec<u8>, NoMemory>
    requires { S.taken source ≡ 0 }
{
    let mut told = Vec::new(alloc);
    let mut unit = CardUnit::new(source);
    tell(&mut unit, &mut told)?;
    Ok(told)
}

/// What a unit tells over a source that never fails, and that gives so many bytes in a call.
fn told_surely(alloc: Global, text: &[u8], piece: usize) -> Result<Vec<u8>, NoMemory>
    requires { 0 < piece }
{
    told_of(alloc, SureSource::new(text.to_vec(alloc)?, piece))
}

/// What a unit tells over a source at which no call fails, and that gives so many bytes in a call.
fn told(alloc: Global, text: Vec<u8>, piece: usize) -> Result<Vec<u8>, NoMemory>
    requires { 0 < piece }
{
    told_of(alloc, MemSource::new(text, piece, Vec::new(alloc)))
}

/// Whether this was told.
fn is_told(told: Result<Vec<u8>, NoMemory>, want: &str) -> bool {
    match told {
        Ok(told) => told.as_slice() == want.as_bytes(),
        Err(_) => false,
    }
}

/// How the texts are told by sources that give so many bytes in a call.
fn tell_in_pieces(rt: &impl Abort, alloc: Global, piece: usize)
    requires { 0 < piece }
{
    for (text, want) in TEXTS {
        let surely = told_surely(alloc, text.as_bytes(), piece);
        assert!(rt; is_told(surely, want), "{text:?} in pieces of {piece}");
        let bytes = row(rt, alloc, 0, text);
        assert!(rt;
            is_told(told(alloc, bytes, piece), want),
            "{text:?} in pieces of {piece}"
        );
    }
}

#[test]
fn a_text_is_told_in_any_pieces(rt: HostRuntime) {
    tell_in_pieces(&rt, rt.alloc(), 1);
    tell_in_pieces(&rt, rt.alloc(), 2);
    tell_in_pieces(&rt, rt.alloc(), 7);
    tell_in_pieces(&rt, rt.alloc(), 512);
}

/// A line of so many columns, and what stands behind it.
fn row(rt: &impl Abort, alloc: Global, columns: usize, behind: &str) -> Vec<u8> {
    let mut text = vec![in alloc; b'X'; columns].ok().expect(rt, "memory");
    assert!(rt; text.extend_from_slice(behind.as_bytes()).is_ok());
    text
}

/// How much is told of a row in pieces of so many bytes: at its end of the card A.
fn length_told(rt: &impl Abort, alloc: Global, row: Vec<u8>, piece: usize) -> usize
    requires { 0 < piece }
{
    let told = told(alloc, row, piece).ok().expect(rt, "ample memory");
    assert!(rt; told.as_slice().ends_with(b"[A].."));
    told.len()
}

#[test]
fn eighty_columns_are_a_card_and_more_are_none(rt: HostRuntime) {
    for (columns, behind, length) in [
        (80, "\nA", 87),
        (80, "\r\nA", 87),
        (80, "   \nA", 6),
        (81, "\nA", 6),
        (81, "\r\nA", 6),
        (700, "\nA", 6),
        (700, "\r\r\nA", 6),
    ] {
        for piece in [1, 7, 512] {
            let row = row(&rt, rt.alloc(), columns, behind);
            assert!(rt;
                length_told(&rt, rt.alloc(), row, 1 + piece) == length,
                "{columns} columns, {behind:?}"
            );
        }
    }
}

#[test]
fn a_failing_take_is_told_and_counted(rt: HostRuntime) {
    let alloc = rt.alloc();
    let failing = [2].to_vec(alloc).ok().expect(&rt, "memory");
    let source = MemSource::new(row(&rt, alloc, 0, "A\nB\nC"), 4, failing);
    let mut unit = CardUnit::new(source);
    let mut told = Vec::new(alloc);
    assert!(rt; tell(&mut unit, &mut told).is_ok());
    assert!(rt; told.as_slice() == b"[A][B]!".as_slice());
    assert!(rt; unit.into_inner().faults() == 1);
}

/// Prints two lines, and tells whether the second one was printed.
pub fn print_two<K: Sink + Drop>(sink: K) -> (K, Option<PrintFault>) {
    let mut unit = PrinterUnit::new(sink);
    let fault = match unit.print(&starting(b"JOB A")) {
        Ok(()) => unit.print(&starting(b"HELLO")).err(),
        Err(fault) => Some(fault),
    };
    (unit.into_inner(), fault)
}

/// The line of these bytes, or of none.
fn starting(bytes: &[u8]) -> Line {
    Line::of(bytes).unwrap_or(Line::new())
}

#[test]
fn a_printer_prints_up_to_its_first_fault(rt: HostRuntime) {
    let alloc = rt.alloc();
    let (sink, fault) = print_two(SureSink::new(alloc));
    assert!(rt; fault == None);
    assert!(rt; sink.bytes() == b"JOB A\nHELLO\n".as_slice());
    let failing = [2].to_vec(alloc).ok().expect(&rt, "memory");
    let (sink, fault) = print_two(MemSink::new(alloc, failing));
    assert!(rt; fault == Some(PrintFault::Failed));
    assert!(rt; sink.bytes() == b"JOB A\n".as_slice());
    assert!(rt; sink.faults() == 1);
}

#[test]
fn an_area_keeps_its_pages(rt: HostRuntime) {
    let mut area = sure_area(&rt, rt.alloc(), 3);
    assert!(rt; area.size() == 3);
    ask_all(
        &rt,
        &mut area,
        &[
            Ask::Reads(1, 0),
            Ask::Writes(1, 9),
            Ask::Reads(1, 9),
            Ask::Reads(2, 0),
        ],
    );
}
