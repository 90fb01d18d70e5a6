use solo_base::{Arg, ArgList, Ident, ProgResult, line_word};
use std::test::Fail;

// The words of `CODE1`, with blanks behind it.
const CODE1: [i16; 12] = [67, 79, 68, 69, 49, 32, 32, 32, 32, 32, 32, 32];

// Whether the argument is this name.
fn is_named(arg: Arg, letters: &[u8]) -> bool {
    match arg {
        Arg::Id(name) => name.name() == letters,
        _ => false,
    }
}

#[test]
fn arguments_come_back_in_their_order(rt: HostRuntime) -> Result<(), Fail> {
    let mut list = ArgList::new();
    assert_eq!(rt; list.len(), 0);
    list.push(Arg::Int(-7));
    list.push(Arg::Bool(true));
    list.push(Arg::Id(Ident::of(b"code1").ok_or("a name")?));
    assert_eq!(rt; list.len(), 3);
    assert!(rt; matches!(list.get(0), Arg::Int(-7)));
    assert!(rt; matches!(list.get(1), Arg::Bool(true)));
    assert!(rt; is_named(list.get(2), b"CODE1"));
    Ok(())
}

#[test]
fn an_identifier_is_twelve_words(rt: HostRuntime) -> Result<(), Fail> {
    let name = Ident::of_words(&CODE1).ok_or("a name")?;
    assert_eq!(rt; name.name(), b"CODE1".as_slice());
    assert_eq!(rt; name.words(), CODE1);
    Ok(())
}

#[test]
fn words_that_are_no_bytes_are_no_name(rt: HostRuntime) {
    for first in [-189, 323, 32] {
        let mut words = CODE1;
        words[0] = first;
        assert!(rt; Ident::of_words(&words).is_none(), "{first}");
    }
}

#[test]
fn ends_and_lines_are_told_as_words(rt: HostRuntime) {
    assert_eq!(rt; ProgResult::Terminated.number(), 0);
    assert_eq!(rt; ProgResult::CallError.number(), 6);
    assert_eq!(rt; line_word(32767), 32767);
    assert_eq!(rt; line_word(40000), 32767);
}
