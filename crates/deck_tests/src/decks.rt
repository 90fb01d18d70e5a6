use deck_format::{
    CardFault, CardFaultKind, Control, DEFAULT_LIMIT, Job, JobReader, Opener, control_of,
};
use solo_base::{Item, Line, LineList, NoMemory};
use std::alloc::Global;
use std::test::Fail;

/// Decks, a bar behind each card and `*` for a spoiled one, and their jobs: a list with its cards
/// in brackets and how it ends; behind the name of a program its limit where it has one, its cards, `/`
/// and its input; behind the name of a program in a file `=`, the file and its input; `-` before a
/// count of skipped cards. A fault in the input ends in `i`.
const DECKS: [(&str, &str); 46] = [
    ("", ""),
    ("#LIST A|", "A."),
    ("#LIST A|HELLO|#END|", "A[HELLO]."),
    ("#list a|Hello|#end|", "A[Hello]."),
    ("#LiSt sum1|#eNd|", "SUM1."),
    ("#LIST    A|X|#END|", "A[X]."),
    ("#LIST A||X||#END|", "A[][X][]."),
    ("#LIST A|X|", "A[X]."),
    ("#LIST A|X|#LIST B|Y|#END|", "A[X].B[Y]."),
    ("#LIST A|#LIST B|", "A.B."),
    ("X|#LIST A|", "-1A."),
    ("|||", ""),
    ("||X||*||", "-2"),
    ("#END|", "-1"),
    ("#DATA|", "-1"),
    ("#LIST A|#END|#END|X|#LIST B|#END|", "A.-2B."),
    ("#LIST A|#END||#LIST B|#END||", "A.B."),
    ("#LIST A|X|*|Y|#END|", "A[X]S2"),
    ("#LIST A|X|#END X|Y|#END|", "A[X]C2"),
    ("#LIST A|#DATA|Y|#END|", "AC1"),
    ("#LIST A|X|Y|*|#BAD|#END|", "A[X][Y]S3"),
    ("#LIST A|#BAD|*|#END|Z|", "AC1-1"),
    ("#LIST A|*|#LIST B|Y|", "AS1B[Y]."),
    ("# LIST A|X|", "-2"),
    ("#LIST A|# LIST B|X|#END|", "AC1"),
    ("#LIST|X|", "-2"),
    ("#LIST 1A|#LIST A B|#LISTS A|", "-3"),
    ("#LIST ABCDEFGHIJKLM|#LIST ABCDEFGHIJKL|", "-1ABCDEFGHIJKL."),
    ("#|##|#LIST A|#|#END|", "-2AC1"),
    (" #LIST A|#LIST B| #END|#END|", "-1B[ #END]."),
    ("*|#LIST A|", "-1A."),
    ("#JOB P|X|#DATA|#LIST A|Y|#END|", "P[X]/.A[Y]."),
    ("#JOB P 7|*|#END|X|#RUN Q F|#END X|#END|", "P@7/S1-1Q=FC1i"),
    ("#RUN P|#JOB P 0|#RUN P F 1|#JOB P|", "-3P/."),
    ("#JOB P|A|B|#DATA|C|D|#END|", "P[A][B]/[C][D]."),
    ("#JOB P|A|#DATA|C|#DATA|D|#END|", "P[A]/[C]C4i"),
    ("#JOB P|A|*|#DATA|C|#END|", "P[A]/S2"),
    ("#JOB P|#BAD|#DATA|*|#END|", "P/C1"),
    ("#JOB P|A|#DATA|*|#DATA|#END|", "P[A]/S3i"),
    ("#JOB P|#data|C|", "P/[C]."),
    ("#JOB P||#DATA||#END|", "P[]/[]."),
    ("#RUN Q F|C|D|#END|", "Q=F[C][D]."),
    ("#RUN Q F|C|#DATA|D|#END|", "Q=F[C]C2i"),
    ("#RUN Q F|*|#END|", "Q=FS1i"),
    ("#JOB P|A|#DATA|C|#JOB Q|B|", "P[A]/[C].Q[B]/."),
    ("#JOB P|#DATA|#END|#DATA|", "P/.-1"),
];

/// What the card stands for, which a star marks as spoiled.
fn item_of(card: &[u8]) -> Item {
    if card == b"*".as_slice() {
        return Item::Spoiled;
    }
    match Line::of(card) {
        Some(line) => Item::Line(line),
        None => Item::Spoiled,
    }
}

/// Adds one digit.
fn tell_number(told: &mut Vec<u8>, number: u32) -> Result<(), NoMemory> {
    told.push(b'0' + (number % 10) as u8)?;
    Ok(())
}

/// Adds cards in brackets.
fn tell_cards(told: &mut Vec<u8>, cards: &LineList) -> Result<(), NoMemory> {
    for place in 0..cards.len() {
        told.push(b'[')?;
        told.extend_from_slice(cards.get(place).bytes())?;
        told.push(b']')?;
    }
    Ok(())
}

/// Adds how a group ends.
fn tell_end(told: &mut Vec<u8>, fault: Option<CardFault>) -> Result<(), NoMemory> {
    let Some(fault) = fault else {
        told.push(b'.')?;
        return Ok(());
    };
    told.push(match fault.kind {
        CardFaultKind::Spoiled => b'S',
        CardFaultKind::Control => b'C',
    })?;
    tell_number(told, fault.card)?;
    if fault.in_input {
        told.push(b'i')?;
    }
    Ok(())
}

/// Adds the job that was given.
fn tell(told: &mut Vec<u8>, given: Option<Job>) -> Result<(), NoMemory> {
    match given {
        None => Ok(()),
        Some(job) => tell_job(told, job),
    }
}

fn tell_job(told: &mut Vec<u8>, job: Job) -> Result<(), NoMemory> {
    match job {
        Job::List { name, cards, fault } => {
            told.extend_from_slice(name.name())?;
            tell_cards(told, &cards)?;
            tell_end(told, fault)
        }
        Job::Pascal {
            name,
            limit,
            program,
            input,
            fault,
        } => {
            told.extend_from_slice(name.name())?;
            if limit != DEFAULT_LIMIT {
                told.push(b'@')?;
                tell_number(told, limit)?;
            }
            tell_cards(told, &program)?;
            told.push(b'/')?;
            tell_cards(told, &input)?;
            tell_end(told, fault)
        }
        Job::Run {
            name,
            file,
            input,
            fault,
        } => {
            told.extend_from_slice(name.name())?;
            told.push(b'=')?;
            told.extend_from_slice(file.name())?;
            tell_cards(told, &input)?;
            tell_end(told, fault)
        }
        Job::Skipped { count } => {
            told.push(b'-')?;
            tell_number(told, count)
        }
    }
}

/// The jobs of a deck.
fn jobs_of(alloc: Global, deck: &[u8]) -> Result<Vec<u8>, Fail> {
    let mut told = Vec::new(alloc);
    let mut reader = JobReader::new(alloc);
    let mut card = Vec::new(alloc);
    for byte in deck {
        if *byte == b'|' {
            tell(&mut told, reader.push(&item_of(card.as_slice()))?)?;
            card.clear();
        } else {
            card.push(*byte)?;
        }
    }
    tell(&mut told, reader.finish())?;
    Ok(told)
}

#[test]
fn a_deck_has_these_jobs(rt: HostRuntime) -> Result<(), Fail> {
    for (deck, want) in DECKS {
        let told = jobs_of(rt.alloc(), deck.as_bytes())?;
        assert_eq!(rt; told.as_slice(), want.as_bytes(), "{deck}");
    }
    Ok(())
}

/// The limit that a card gives a job.
fn limit_on(card: &[u8]) -> Option<u32> {
    match control_of(card) {
        Some(Control::Opens(Opener::Job { name: _, limit })) => Some(limit),
        _ => None,
    }
}

#[test]
fn a_limit_is_from_1_to_1000000(rt: HostRuntime) {
    for (card, want) in [
        (b"#JOB P".as_slice(), Some(10_000)),
        (b"#JOB P 0".as_slice(), None),
        (b"#JOB P 1".as_slice(), Some(1)),
        (b"#job p   1000000".as_slice(), Some(1_000_000)),
        (b"#JOB P 1000001".as_slice(), None),
        (b"#JOB P 0000010".as_slice(), Some(10)),
        (b"#JOB P 00000010".as_slice(), None),
        (b"#JOB P 9999999".as_slice(), None),
        (b"#JOB P 1A".as_slice(), None),
        (b"#JOB P -1".as_slice(), None),
        (b"#JOB P 1 2".as_slice(), None),
    ] {
        assert_eq!(rt; limit_on(card), want, "{card:?}");
    }
}
