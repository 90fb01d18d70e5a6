// What each of Solo's processes does by its replies.

use crate::scripts::does;
use solo_procs::{InputProc, OutputProc};

const INPUT: [(&[&str], &str); 8] = [
    (&["nil"], "TakeArg 1|Ended Done|"),
    (
        &[":CARDS", "=HELLO", "=#END", "done", "done", "nil"],
        "TakeArg 1|ReadCard|ReadCard|PutPage 2 0 006 last|PutArg 3 true|TakeArg 1|Ended Done|",
    ),
    (
        &[
            ":CARDS", "=A", "spoiled", "=B", "=#end", "done", "done", ":CARDS", "=C", "end",
            "done", "done",
        ],
        "TakeArg 1|ReadCard|ReadCard|ReadCard|ReadCard|PutPage 2 0 002 last|PutArg 3 false|TakeArg 1|\
          ReadCard|ReadCard|PutPage 2 0 002 last|PutArg 3 true|TakeArg 1|",
    ),
    (
        &[":CARDS", "end", "done"],
        "TakeArg 1|ReadCard|PutPage 2 0 000 last|PutArg 3 true|",
    ),
    (
        &["stopped", "done", "done", "done"],
        "TakeArg 1|Stop 1|Stop 2|Stop 3|Ended Stopped|",
    ),
    (
        &[":CARDS", "unread", "done", "done", "done"],
        "TakeArg 1|ReadCard|Stop 1|Stop 2|Stop 3|Ended ReadFault|",
    ),
    (
        &[":CARDS", "limit", "done"],
        "TakeArg 1|ReadCard|Stop 1|Stop 2|",
    ),
    (
        &[":CARDS", "end", "stopped", "done", "done"],
        "TakeArg 1|ReadCard|PutPage 2 0 000 last|Stop 1|Stop 2|Stop 3|",
    ),
];

#[test]
fn the_input_process_packs_a_card_file_behind_each_order(rt: HostRuntime) {
    let alloc = rt.alloc();
    for (replies, want) in &INPUT {
        assert!(rt;
            does::<InputProc>(alloc, replies, want) == Some(true),
            "{}",
            want
        );
    }
}

const OUTPUT: [(&[&str], &str); 7] = [
    (&["nil"], "TakeArg 4|Ended Done|"),
    (
        &[":PRINTER", "*HELLO", "done", "done", "nil"],
        "TakeArg 4|TakePage 5|Print HELLO|PutArg 6 true|TakeArg 4|Ended Done|",
    ),
    (
        &[":PRINTER", "full", "failed", "done", "done", "done"],
        "TakeArg 4|TakePage 5|Print \
          xxxxxxxxxxxxxxxxxxxxxxxxxxxxxxxxxxxxxxxxxxxxxxxxxxxxxxxxxxxx\
          xxxxxxxxxxxxxxxxxxxxxxxxxxxxxxxxxxxxxxxxxxxxxxxxxxxxxxxxxxxx\
          |Stop 4|Stop 5|Stop 6|Ended PrintFault|",
    ),
    (
        &[":PRINTER", "zeros", "done", "done", "done"],
        "TakeArg 4|TakePage 5|Stop 4|Stop 5|Stop 6|Ended Damaged|",
    ),
    (
        &[":PRINTER", "*A", "lacking"],
        "TakeArg 4|TakePage 5|Print A|Stop 4|",
    ),
    (
        &[":PRINTER", "*A", "done", "done", ":PRINTER", "*B"],
        "TakeArg 4|TakePage 5|Print A|PutArg 6 true|TakeArg 4|TakePage 5|Print B|",
    ),
    (
        &[":PRINTER", "stopped", "done"],
        "TakeArg 4|TakePage 5|Stop 4|Stop 5|",
    ),
];

#[test]
fn the_output_process_prints_up_to_a_last_page_and_reports(rt: HostRuntime) {
    let alloc = rt.alloc();
    for (replies, want) in &OUTPUT {
        assert!(rt;
            does::<OutputProc>(alloc, replies, want) == Some(true),
            "{}",
            want
        );
    }
}
