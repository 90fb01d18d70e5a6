// Sessions, and what one thread tells of them.

use crate::running::{NONE_FAILS, Session, run};
use std::process::Abort;
use std::sync::Wait;
use std::test::Fail;
use std::thread::Threads;

/// A program is copied, compiled and run, and its text printed.
pub const FIRST: Session = Session {
    keys: b"copy(cards, text)\ncompile(text, prog)\nprog\ncopy(text, printer)\ncopy(cards, text)\nlist\n",
    cards: b"BEGIN WRITE('H'); WRITE('I') END.\n#END\n",
    console: b"COPY: OK\nCOMPILE: OK\nPROG: TERMINATED\nCOPY: OK\nCOPY: FILE EXISTS\n\
        PROG SEQCODE 1 PAGES\nTEXT ASCII 1 PAGES\nLIST: 2 FILES\n",
    paper: b"HI\nBEGIN WRITE('H'); WRITE('I') END.\n",
};

/// A program runs itself, four times inside of itself; the fifth finds no place on the stack.
const DEEP: Session = Session {
    keys: b"copy(cards, text)\ncompile(text, deep)\ndeep\n",
    cards: b"VAR ID: ARRAY (.1..12.) OF CHAR; L, R, I: INTEGER;\n\
        BEGIN FOR I := 1 TO 12 DO ID(.I.) := ' ';\n\
        ID(.1.) := 'D'; ID(.2.) := 'E'; ID(.3.) := 'E'; ID(.4.) := 'P';\n\
        RUN(ID, L, R); WRITEINT(R); WRITE(NL) END.\n",
    console: b"COPY: OK\nCOMPILE: OK\nDEEP: TERMINATED\n",
    paper: b"6\n0\n0\n0\n0\n",
};

/// A program displays what is typed, to its end; files are protected, renamed and deleted before.
const DIALOGUE: Session = Session {
    keys: b"copy(cards, source)\ncompile(source, echo)\nprotect(echo, on)\ndelete(echo)\nlist\n\
        rename(source, text)\ncopy(text, printer)\ndelete(text)\nsing\nsing a song\n\
        echo\nHELLO\nGOOD BYE\n",
    cards: b"VAR C: CHAR;\nBEGIN ACCEPT(C);\n\
        WHILE C <> EM DO BEGIN DISPLAY(C); ACCEPT(C) END\nEND.\n#END\n",
    console: b"COPY: OK\nCOMPILE: OK\nPROTECT: OK\nDELETE: PROTECTED\n\
        ECHO SEQCODE 1 PAGES PROTECTED\nSOURCE ASCII 1 PAGES\nLIST: 2 FILES\n\
        RENAME: OK\nCOPY: OK\nDELETE: OK\nSING: NO FILE\nBAD COMMAND\n\
        HELLO\nGOOD BYE\nECHO: TERMINATED\n",
    paper: b"VAR C: CHAR;\nBEGIN ACCEPT(C);\n\
        WHILE C <> EM DO BEGIN DISPLAY(C); ACCEPT(C) END\nEND.\n",
};

/// Card files one after the other: one with a spoiled card of 81 columns, one that is whole, an empty one
/// behind the last card; blank lines and the last line without an end.
const CARD_FILES: Session = Session {
    keys: b"copy(cards, printer)\n\n  \nCopy ( Cards , Printer )\ncopy(cards, a)\ncopy(a, printer)\n\
        copy(cards, a)\ndelete(b)\nlist()\nlist",
    cards: b"LOST\n\
        XXXXXXXXXXXXXXXXXXXXXXXXXXXXXXXXXXXXXXXXXXXXXXXXXXXXXXXXXXXXXXXXXXXXXXXXXXXXXXXXX\n\
        LOST\n#END\nONE\nTWO\n#END\n",
    console: b"COPY: SPOILED CARD\nCOPY: OK\nCOPY: OK\nCOPY: OK\nCOPY: FILE EXISTS\n\
        DELETE: NO FILE\nBAD COMMAND\nA ASCII 1 PAGES\nLIST: 1 FILES\n",
    paper: b"ONE\nTWO\n",
};

/// Nothing is typed.
const SILENCE: Session = Session {
    keys: b"",
    cards: b"A CARD\n",
    console: b"",
    paper: b"",
};

/// Whether the session is told whole, in pieces of one byte and of 512.
fn is_told(
    rt: &(impl Threads + Wait + Sync + AllocGlobal + Abort),
    session: Session,
) -> Result<bool, Fail> {
    let whole = run(rt, session, 512, NONE_FAILS)?;
    let pieces = run(rt, session, 1, NONE_FAILS)?;
    Ok(whole.is_whole(session) && pieces.is_whole(session))
}

#[test]
fn a_program_is_copied_compiled_and_run(rt: HostRuntime) -> Result<(), Fail> {
    assert!(rt; is_told(&rt, FIRST)?);
    Ok(())
}

#[test]
fn a_program_runs_itself_five_deep(rt: HostRuntime) -> Result<(), Fail> {
    assert!(rt; is_told(&rt, DEEP)?);
    Ok(())
}

#[test]
fn a_program_displays_what_is_typed(rt: HostRuntime) -> Result<(), Fail> {
    assert!(rt; is_told(&rt, DIALOGUE)?);
    Ok(())
}

#[test]
fn card_files_come_one_after_the_other(rt: HostRuntime) -> Result<(), Fail> {
    assert!(rt; is_told(&rt, CARD_FILES)?);
    Ok(())
}

#[test]
fn the_end_of_the_keys_ends_a_session_well(rt: HostRuntime) -> Result<(), Fail> {
    assert!(rt; is_told(&rt, SILENCE)?);
    Ok(())
}
