// Sessions, and what they display and print whatever the order in which the three processes go on.

use crate::longer::{LONG, LONG_CONSOLE, LONG_PAPER};
use crate::net_runs::{NONE_FAILS, Session, run};
use network_run::Rule;
use std::alloc::Global;
use std::process::Abort;

// A text is stored, compiled, run and listed.
const STORED: Session = Session {
    keys: "copy(cards, text)\ncompile(text, prog)\nprog\ncopy(text, printer)\ncopy(cards, text)\nlist\n",
    cards: "BEGIN WRITE('H'); WRITE('I') END.\n#END\n",
    piece: 7,
};

const STORED_CONSOLE: &str = "COPY: OK\n\
    COMPILE: OK\n\
    PROG: TERMINATED\n\
    COPY: OK\n\
    COPY: FILE EXISTS\n\
    PROG SEQCODE 1 PAGES\n\
    TEXT ASCII 1 PAGES\n\
    LIST: 2 FILES\n";

const STORED_PAPER: &str = "HI\n\
    BEGIN WRITE('H'); WRITE('I') END.\n";

// A program that runs itself, five deep.
const DEEP: Session = Session {
    keys: "copy(cards, text)\ncompile(text, deep)\ndeep\n",
    cards: "VAR ID: ARRAY (.1..12.) OF CHAR; L, R, I: INTEGER;\n\
        BEGIN FOR I := 1 TO 12 DO ID(.I.) := ' ';\n\
        ID(.1.) := 'D'; ID(.2.) := 'E'; ID(.3.) := 'E'; ID(.4.) := 'P';\n\
        RUN(ID, L, R); WRITEINT(R); WRITE('(:10:)') END.\n",
    piece: 64,
};

const DEEP_CONSOLE: &str = "COPY: OK\nCOMPILE: OK\nDEEP: TERMINATED\n";

const DEEP_PAPER: &str = "6\n0\n0\n0\n0\n";

// A run by a rule: all is displayed and printed, and the three are done.
fn tells(rt: &impl Abort, alloc: Global, session: Session, rule: Rule, console: &str, paper: &str) {
    let came = run(rt, alloc, session, rule, NONE_FAILS).expect(rt, "files");
    assert!(rt; came.ended.as_str() == "Done Done Done ", "{}", came.ended);
    assert!(rt; came.console.as_slice() == console.as_bytes());
    assert!(rt; came.paper.as_slice() == paper.as_bytes());
}

// In turn, and by a hundred schedules.
fn tells_always(rt: &impl Abort, alloc: Global, session: Session, console: &str, paper: &str) {
    tells(rt, alloc, session, Rule::Least, console, paper);
    tells(rt, alloc, session, Rule::Cyclic { last: 3 }, console, paper);
    for number in 0..100 {
        tells(
            rt,
            alloc,
            session,
            Rule::Numbered { number },
            console,
            paper,
        );
    }
}

#[test]
fn a_text_is_stored_compiled_run_and_listed(rt: HostRuntime) {
    tells_always(&rt, rt.alloc(), STORED, STORED_CONSOLE, STORED_PAPER);
}

#[test]
fn a_program_runs_itself_five_deep(rt: HostRuntime) {
    tells_always(&rt, rt.alloc(), DEEP, DEEP_CONSOLE, DEEP_PAPER);
}

#[test]
fn a_session_uses_each_command(rt: HostRuntime) {
    let alloc = rt.alloc();
    tells(
        &rt,
        alloc,
        LONG,
        Rule::Cyclic { last: 3 },
        LONG_CONSOLE,
        LONG_PAPER,
    );
    for number in 0..10 {
        tells(
            &rt,
            alloc,
            LONG,
            Rule::Numbered { number },
            LONG_CONSOLE,
            LONG_PAPER,
        );
    }
}

#[test]
fn nothing_typed_displays_nothing(rt: HostRuntime) {
    let session = Session {
        keys: "\n   \n",
        cards: "A\n",
        piece: 3,
    };
    tells_always(&rt, rt.alloc(), session, "", "");
}
