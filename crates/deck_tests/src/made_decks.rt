use made_deck::make_deck;
use std::test::Fail;

/// How many cards of the deck begin so.
fn count(deck: &[u8], word: &[u8]) -> usize {
    deck.split(|byte| *byte == b'\n')
        .filter(|card| card.starts_with(word))
        .count()
}

#[test]
fn the_deck_of_0_has_a_hundred_jobs(rt: HostRuntime) -> Result<(), Fail> {
    let deck = make_deck(rt.alloc(), 0).ok().expect(&rt, "ample memory");
    assert!(rt;
        deck.starts_with(
            b"#JOB P1\nVAR I: INTEGER;\nBEGIN\nFOR I := 1 TO 1 DO BEGIN WRITEINT(I); WRITE(NL) END\n\
              END.\n#END\n#JOB P2\n"
        )
    );
    assert!(rt;
        deck.ends_with(
            b"#LIST L99\nCARD 1\n#END\n#JOB P100\nVAR I: INTEGER;\nBEGIN\n\
              FOR I := 1 TO 0 DO BEGIN WRITEINT(I); WRITE(NL) END\n\
              END.\n#END\n"
        )
    );
    assert_eq!(rt; count(&deck, b"#JOB"), 67);
    assert_eq!(rt; count(&deck, b"#LIST"), 33);
    assert_eq!(rt; count(&deck, b"#END"), 100);
    assert_eq!(rt; count(&deck, b""), 569 + 1);
    Ok(())
}
