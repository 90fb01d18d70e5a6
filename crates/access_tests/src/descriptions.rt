use access_check::{Accepted, AccessFault, check};
use solo_base::{Ident, Item, Line, NoMemory};
use std::alloc::Global;
use std::test::Fail;

/// Descriptions, a bar behind each card and `*` for a spoiled one, and what is said of them, worked out by
/// hand from the rules of cards.
const DESCRIPTIONS: [(&str, &str); 44] = [
    ("", "ACCEPTED 0 0"),
    (
        "MONITOR A|MONITOR B|PROCESS P|RIGHT P A B|RIGHT A B|ORDER A B|",
        "ACCEPTED 2 1",
    ),
    (
        "MONITOR A|MONITOR B|PROCESS P|RIGHT P A B|RIGHT A B|ORDER B A|",
        "BACKWARD A B",
    ),
    (
        "MONITOR A|MONITOR B|PROCESS P|RIGHT P A B|RIGHT A B|ORDER A|",
        "MISSING B",
    ),
    ("MONITOR A|RIGHT A A|ORDER A|", "BACKWARD A A"),
    ("MONITOR A|PROCESS A|", "TWICE 2"),
    // cards and their forms
    ("|||", "ACCEPTED 0 0"),
    ("|monitor a||order A|", "ACCEPTED 1 0"),
    ("   MONITOR   a1|ORDER A1|", "ACCEPTED 1 0"),
    ("MONITOR A|*|", "BAD LINE 2"),
    ("|*|MONITOR|", "BAD LINE 2"),
    ("MONITOR|", "BAD LINE 1"),
    ("MONITOR A B|", "BAD LINE 1"),
    ("PROCESS|", "BAD LINE 1"),
    ("PROCESS P Q|", "BAD LINE 1"),
    ("RIGHT|", "BAD LINE 1"),
    ("PROCESS P|RIGHT P|", "BAD LINE 2"),
    ("ORDER|", "BAD LINE 1"),
    ("MONITORS A|", "BAD LINE 1"),
    ("MONITO A|", "BAD LINE 1"),
    ("MONITOR 1A|", "BAD LINE 1"),
    ("MONITOR ABCDEFGHIJKLM|", "BAD LINE 1"),
    ("MONITOR ABCDEFGHIJKL|ORDER ABCDEFGHIJKL|", "ACCEPTED 1 0"),
    ("RIGHT X 2Y|", "BAD LINE 1"),
    // names
    ("MONITOR A|monitor a|", "TWICE 2"),
    ("PROCESS P|PROCESS P|", "TWICE 2"),
    ("PROCESS P|RIGHT P A|MONITOR A|ORDER A|", "UNKNOWN 2"),
    ("MONITOR A|RIGHT P A|PROCESS P|ORDER A|", "UNKNOWN 2"),
    ("PROCESS P|PROCESS Q|RIGHT P Q|", "UNKNOWN 3"),
    ("PROCESS P|ORDER P|", "UNKNOWN 2"),
    ("ORDER A|MONITOR A|", "UNKNOWN 1"),
    ("MONITOR A|RIGHT A A X|", "UNKNOWN 2"),
    // the order
    ("MONITOR A|ORDER A|ORDER A|", "AGAIN 3"),
    ("MONITOR A|ORDER A A|", "AGAIN 2"),
    ("MONITOR A|ORDER A A X|", "UNKNOWN 2"),
    (
        "MONITOR A|MONITOR B|ORDER A|ORDER B|RIGHT A B|",
        "ACCEPTED 2 0",
    ),
    (
        "MONITOR A|MONITOR B|ORDER B|ORDER A|RIGHT A B|",
        "BACKWARD A B",
    ),
    ("MONITOR A|MONITOR B|MONITOR C|ORDER B|", "MISSING A"),
    ("MONITOR A|ORDER A|MONITOR B|", "MISSING B"),
    ("MONITOR A|MONITOR B|RIGHT B A|ORDER A|", "MISSING B"),
    // rights
    (
        "MONITOR A|MONITOR B|MONITOR C|RIGHT A B C|RIGHT B C A|ORDER A B C|",
        "BACKWARD B A",
    ),
    (
        "MONITOR A|MONITOR B|RIGHT A B|RIGHT B A|RIGHT A A|ORDER A B|",
        "BACKWARD B A",
    ),
    (
        "MONITOR A|MONITOR B|PROCESS P|RIGHT P B|RIGHT P A|RIGHT P B A|ORDER A B|",
        "ACCEPTED 2 1",
    ),
    ("MONITOR A|MONITOR A|*|MONITOR|", "TWICE 2"),
];

/// What the card stands for, which a star marks as spoiled.
fn item_of(card: &[u8]) -> Item {
    if card == b"*".as_slice() {
        return Item::Spoiled;
    }
    match Line::of(card) {
        Some(line) => Item::Line(line),
        None => Item::Spoiled,
    }
}

/// The cards of a description.
fn items_of(alloc: Global, description: &[u8]) -> Result<Vec<Item>, NoMemory> {
    let mut items = Vec::new(alloc);
    let mut card = Vec::new(alloc);
    for byte in description {
        if *byte == b'|' {
            items.push(item_of(card.as_slice()))?;
            card.clear();
        } else {
            card.push(*byte)?;
        }
    }
    Ok(items)
}

/// Adds a name, behind a blank.
fn tell_name(told: &mut Vec<u8>, name: &Ident) -> Result<(), NoMemory> {
    told.push(b' ')?;
    told.extend_from_slice(name.name())?;
    Ok(())
}

/// Adds words and a number.
fn tell_number(told: &mut Vec<u8>, words: &[u8], number: u32) -> Result<(), NoMemory> {
    told.extend_from_slice(words)?;
    let mut digits = Line::new();
    digits.append_number(number);
    told.extend_from_slice(digits.bytes())?;
    Ok(())
}

fn tell_accepted(told: &mut Vec<u8>, accepted: Accepted) -> Result<(), NoMemory> {
    tell_number(told, b"ACCEPTED ", accepted.monitors as u32)?;
    tell_number(told, b" ", accepted.processes as u32)
}

fn tell_fault(told: &mut Vec<u8>, fault: AccessFault) -> Result<(), NoMemory> {
    match fault {
        AccessFault::BadLine { card } => tell_number(told, b"BAD LINE ", card),
        AccessFault::Twice { card } => tell_number(told, b"TWICE ", card),
        AccessFault::TooMany { card } => tell_number(told, b"TOO MANY ", card),
        AccessFault::Unknown { card } => tell_number(told, b"UNKNOWN ", card),
        AccessFault::Again { card } => tell_number(told, b"AGAIN ", card),
        AccessFault::Missing { monitor } => {
            told.extend_from_slice(b"MISSING")?;
            tell_name(told, &monitor)
        }
        AccessFault::Backward { holder, monitor } => {
            told.extend_from_slice(b"BACKWARD")?;
            tell_name(told, &holder)?;
            tell_name(told, &monitor)
        }
        AccessFault::NoMemory => Err(NoMemory),
    }
}

/// What is said of a description.
fn said_of(alloc: Global, items: &[Item]) -> Result<Vec<u8>, NoMemory> {
    let mut told = Vec::new(alloc);
    match check(alloc, items) {
        Ok(accepted) => tell_accepted(&mut told, accepted)?,
        Err(fault) => tell_fault(&mut told, fault)?,
    }
    Ok(told)
}

#[test]
fn a_description_is_judged(rt: HostRuntime) -> Result<(), Fail> {
    for (description, want) in DESCRIPTIONS {
        let items = items_of(rt.alloc(), description.as_bytes())?;
        let said = said_of(rt.alloc(), items.as_slice())?;
        assert_eq!(rt; said.as_slice(), want.as_bytes(), "{description}");
    }
    Ok(())
}

/// A card that ends in a number.
fn numbered(alloc: Global, words: &[u8], number: u32) -> Result<Item, NoMemory> {
    let mut card = Vec::new(alloc);
    tell_number(&mut card, words, number)?;
    Ok(item_of(card.as_slice()))
}

/// So many monitors, each with a card of its own, and their order.
fn many(alloc: Global, count: u32) -> Result<Vec<Item>, NoMemory> {
    let mut items = Vec::new(alloc);
    for number in 0..count {
        items.push(numbered(alloc, b"MONITOR M", number)?)?;
    }
    for number in 0..count {
        items.push(numbered(alloc, b"ORDER M", number)?)?;
    }
    Ok(items)
}

#[test]
fn there_are_at_most_255_names(rt: HostRuntime) -> Result<(), Fail> {
    for (count, want) in [
        (255, b"ACCEPTED 255 0".as_slice()),
        (256, b"TOO MANY 256".as_slice()),
        (300, b"TOO MANY 256".as_slice()),
    ] {
        let items = many(rt.alloc(), count)?;
        let said = said_of(rt.alloc(), items.as_slice())?;
        assert_eq!(rt; said.as_slice(), want, "{count}");
    }
    Ok(())
}
