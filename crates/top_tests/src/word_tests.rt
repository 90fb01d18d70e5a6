// The command that words are.

use crate::running::words_of;
use solo_cli::{Command, command_of};
use std::alloc::Global;
use std::test::Fail;

/// The command that these words are.
fn command(alloc: Global, texts: &[&str]) -> Result<Option<Command>, Fail> {
    let words = words_of(alloc, texts)?;
    Ok(command_of(words.as_slice()))
}

/// Whether each written form of this word with its option is this command.
fn is_each_form(
    alloc: Global,
    word: &str,
    option: &str,
    digits: &str,
    asked: Command,
) -> Result<bool, Fail> {
    let joined = format!(in alloc; "{option}={digits}")?;
    let joined = joined.as_str();
    let asked = Some(asked);
    Ok(
        command(alloc, &[word, option, digits])? == asked
            && command(alloc, &[option, digits, word])? == asked
            && command(alloc, &[word, joined])? == asked
            && command(alloc, &[joined, word])? == asked,
    )
}

/// The schedules that digits name, and the decks.
const SCHEDULES: [(&str, u32); 5] = [
    ("0", 0),
    ("7", 7),
    ("0000000007", 7),
    ("0000000000", 0),
    ("2147483647", 2_147_483_647),
];

const NUMBERS: [(&str, u32); 3] = [("0", 0), ("0000000007", 7), ("50000", 50_000)];

#[test]
fn each_written_form_is_a_command(rt: HostRuntime) -> Result<(), Fail> {
    let alloc = rt.alloc();
    for (word, asked) in [
        ("batch", Command::Batch),
        ("format", Command::Format),
        ("migrate", Command::Migrate),
        ("check", Command::Check),
        ("solo", Command::Solo),
    ] {
        assert_eq!(rt; command(alloc, &[word])?, Some(asked));
    }
    for (digits, schedule) in SCHEDULES {
        let asked = Command::Core { schedule };
        assert!(rt;
            is_each_form(alloc, "core", "--schedule", digits, asked)?,
            "{digits}"
        );
        let asked = Command::Times { schedule };
        assert!(rt;
            is_each_form(alloc, "times", "--schedule", digits, asked)?,
            "{digits}"
        );
    }
    for (digits, number) in NUMBERS {
        let asked = Command::Make { number };
        assert!(rt;
            is_each_form(alloc, "make", "--number", digits, asked)?,
            "{digits}"
        );
    }
    Ok(())
}

/// Words that are no written form.
const OTHERS: [&[&str]; 67] = [
    &[],
    &[""],
    &["BATCH"],
    &["batch "],
    &["batch", "batch"],
    &["batch", ""],
    &["--", "batch"],
    &["batch", "--"],
    &["batch", "--schedule", "7"],
    &["--schedule", "7", "batch"],
    &["batch", "--schedule=7"],
    &["core"],
    &["--schedule", "7"],
    &["--schedule=7"],
    &["core", "7"],
    &["core", "--schedule"],
    &["core", "--schedule="],
    &["core", "--schedule", ""],
    &["core", "--schedule", "-1"],
    &["core", "--schedule", "+7"],
    &["core", "--schedule", " 7"],
    &["core", "--schedule", "7 "],
    &["core", "--schedule", "0x7"],
    &["core", "--schedule", "2147483648"],
    &["core", "--schedule=2147483648"],
    &["core", "--schedule", "9999999999"],
    &["core", "--schedule", "00000000007"],
    &["--schedule", "core", "7"],
    &["core", "7", "--schedule"],
    &["core", "--SCHEDULE", "7"],
    &["core", "--number", "7"],
    &["core", "--schedule", "=7"],
    &["core", "--schedule", "7", "7"],
    &["core", "--schedule=7", "--schedule=7"],
    &["times"],
    &["times", "--number", "7"],
    &["times", "--schedule", "2147483648"],
    &["make"],
    &["MAKE", "--number", "7"],
    &["make", "7"],
    &["--number=7"],
    &["make", "--number"],
    &["make", "--number="],
    &["make", "--number", "-1"],
    &["make", "--number", "50001"],
    &["make", "--number=50001"],
    &["make", "--number", "00000000007"],
    &["make", "--schedule", "7"],
    &["make", "--schedule=7"],
    &["core", "--number=7"],
    &["batch", "--number", "7"],
    &["--number", "make", "7"],
    &["make", "--number", "7", "7"],
    &["FORMAT"],
    &["formats"],
    &["format", "format"],
    &["format", "--number=7"],
    &["--number", "7", "format"],
    &["MIGRATE"],
    &["migrate", "format"],
    &["migrate", "--schedule", "7"],
    &["CHECK"],
    &["check", "batch"],
    &["check", "--number", "7"],
    &["SOLO"],
    &["solo", "batch"],
    &["solo", "--schedule", "7"],
];

#[test]
fn other_words_are_no_command(rt: HostRuntime) -> Result<(), Fail> {
    for texts in OTHERS {
        assert!(rt; command(rt.alloc(), texts)?.is_none(), "{texts:?}");
    }
    Ok(())
}
