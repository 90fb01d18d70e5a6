use solo_base::{Ident, Line, LineList, NoMemory, trim_end};
use std::alloc::Global;
use std::test::Fail;

fn is_line(bytes: &[u8]) -> bool {
    Line::of(bytes).is_some()
}

#[test]
fn a_line_prints_and_is_short(rt: HostRuntime) {
    assert!(rt; is_line(&[b'X'; 132]) && !is_line(&[b'X'; 133]));
    assert!(rt; is_line(b"") && is_line(b" ~"));
    for bytes in [b"A\x1f", b"A\x7f", b"A\n"] {
        assert!(rt; !is_line(bytes), "{bytes:?}");
    }
}

#[test]
fn a_number_is_added_in_decimal(rt: HostRuntime) {
    let mut line = Line::new();
    line.append_number(4294967295);
    assert_eq!(rt; line.bytes(), b"4294967295".as_slice());
}

// The line of these bytes, or of none.
fn line_of(bytes: &[u8]) -> Line {
    Line::of(bytes).unwrap_or(Line::new())
}

fn list_of(alloc: Global, texts: &[&[u8]]) -> Result<LineList, NoMemory> {
    let mut list = LineList::new(alloc);
    for text in texts {
        list.push(&line_of(text))?;
    }
    Ok(list)
}

// Whether the list has this line at this place.
fn has(list: &LineList, place: usize, text: &[u8]) -> bool {
    place < list.len() && list.get(place).bytes() == text
}

#[test]
fn a_list_gives_its_lines_back(rt: HostRuntime) -> Result<(), Fail> {
    let list = list_of(rt.alloc(), &[b"BEGIN", b"", b"END."])?;
    assert_eq!(rt; list.len(), 3);
    assert!(rt; has(&list, 0, b"BEGIN") && has(&list, 1, b"") && has(&list, 2, b"END."));
    Ok(())
}

fn is_identifier(bytes: &[u8]) -> bool {
    Ident::of(bytes).is_some()
}

#[test]
fn an_identifier_is_a_name_in_capitals(rt: HostRuntime) -> Result<(), Fail> {
    let sum = Ident::of(b"Sum1").ok_or("a name")?;
    assert_eq!(rt; sum.bytes().as_slice(), b"SUM1        ".as_slice());
    assert_eq!(rt; sum.name(), b"SUM1".as_slice());
    assert!(rt; !is_identifier(b"") && !is_identifier(b"1A"));
    assert!(rt; !is_identifier(b"A B") && !is_identifier(b"ABCDEFGHIJKLM"));
    Ok(())
}

#[test]
fn blanks_at_the_end_go(rt: HostRuntime) {
    assert_eq!(rt; trim_end(b" A B  "), b" A B".as_slice());
    assert_eq!(rt; trim_end(b"   "), b"".as_slice());
}
