// Each call of each of the five devices fails in turn: how the three end, who stopped which buffer, and what
// was displayed and printed by then. What is wanted is told by `oracle/solo --deeds`, by the rules of the
// processes.

use crate::net_runs::{Came, Failing, NONE_FAILS, run};
use crate::sessions::{CONSOLE, DEEDS, PAPER, line_count};
use network_run::Rule;
use std::alloc::Global;
use std::process::Abort;

/// The devices.
#[derive(Clone, Copy)]
pub enum Device {
    Cards,
    Keys,
    Console,
    Paper,
    Files,
}

impl Device {
    /// This call of it fails, from 1 on.
    pub fn fails_at(self, call: u64) -> Failing {
        match self {
            Device::Cards => Failing {
                cards: call,
                ..NONE_FAILS
            },
            Device::Keys => Failing {
                keys: call,
                ..NONE_FAILS
            },
            Device::Console => Failing {
                console: call,
                ..NONE_FAILS
            },
            Device::Paper => Failing {
                paper: call,
                ..NONE_FAILS
            },
            Device::Files => Failing {
                files: call,
                ..NONE_FAILS
            },
        }
    }
}

// How it ended, and how many events, delays, lines of the console and lines of the paper there were.
fn told(came: &Came, alloc: Global) -> Option<String> {
    let mut text = String::new(alloc);
    let (events, delays) = (came.story.text.len() / 3, came.story.delays);
    let (shown, printed) = (line_count(&came.console), line_count(&came.paper));
    text.push_str(came.ended.as_str()).ok()?;
    write!(text, " {events} {delays} {shown} {printed}").ok()?;
    Some(text)
}

// Call 1 of the device, then call 2 and so on, each under the schedule of its own number.
fn fails(rt: &impl Abort, alloc: Global, device: Device, rows: &[&str]) {
    let mut call: u32 = 0;
    for wanted in rows {
        call = call.saturating_add(1);
        let rule = Rule::Numbered { number: call };
        let came = run(rt, alloc, DEEDS, rule, device.fails_at(u64::from(call)));
        let text = told(&came, alloc).expect(rt, "memory");
        assert!(rt; text.as_str() == *wanted, "{text}\nin place of\n{wanted}");
        assert!(rt; CONSOLE.as_bytes().starts_with(came.console.as_slice()));
        assert!(rt; PAPER.as_bytes().starts_with(came.paper.as_slice()));
    }
}

const CARDS_ROWS: [&str; 13] = [
    "ReadFault Stopped Stopped rsrssr 29 3 2 0",
    "ReadFault Stopped Stopped rssssr 30 3 2 0",
    "ReadFault Stopped Stopped rssssr 31 3 2 0",
    "ReadFault Stopped Stopped rssssr 32 3 2 0",
    "ReadFault Stopped Stopped rsssss 33 3 2 0",
    "ReadFault Stopped Stopped rsssrs 34 3 2 0",
    "ReadFault Stopped Stopped rssssr 35 3 2 0",
    "ReadFault Stopped Stopped rssssr 36 3 2 0",
    "ReadFault Stopped Stopped rssssr 39 3 2 0",
    "ReadFault Stopped Stopped rssssr 82 10 5 10",
    "ReadFault Stopped Stopped rssssr 81 8 5 10",
    "ReadFault Stopped Stopped rssssr 82 8 5 10",
    "ReadFault Stopped Stopped rssssr 84 9 5 10",
];

#[test]
fn each_call_of_the_cards_that_fails_ends_the_input_process(rt: HostRuntime) {
    fails(&rt, rt.alloc(), Device::Cards, &CARDS_ROWS);
}

const KEYS_ROWS: [&str; 8] = [
    "Stopped ReadFault Stopped srrsss 20 2 0 0",
    "Stopped ReadFault Stopped srrssr 60 5 3 6",
    "Stopped ReadFault Stopped srrssr 74 7 5 10",
    "Stopped ReadFault Stopped srrsss 75 7 5 10",
    "Stopped ReadFault Stopped srsssr 103 11 8 11",
    "Stopped ReadFault Stopped srrssr 107 12 9 11",
    "Stopped ReadFault Stopped srrsrs 134 14 14 16",
    "Stopped ReadFault Stopped srrsss 139 17 14 16",
];

#[test]
fn each_call_of_the_keys_that_fails_ends_the_job_process(rt: HostRuntime) {
    fails(&rt, rt.alloc(), Device::Keys, &KEYS_ROWS);
}

const CONSOLES_ROWS: [&str; 16] = [
    "Stopped ConsoleFault Stopped srrsrs 22 2 0 0",
    "Stopped ConsoleFault Stopped srrsss 24 2 1 0",
    "Stopped ConsoleFault Stopped srrssr 58 5 2 6",
    "Stopped ConsoleFault Stopped srrssr 72 7 3 10",
    "Stopped ConsoleFault Stopped srrssr 73 7 4 10",
    "Stopped ConsoleFault Stopped srsssr 91 10 5 10",
    "Stopped ConsoleFault Stopped srrsrs 101 11 6 11",
    "Stopped ConsoleFault Stopped srssrs 105 14 7 11",
    "Stopped ConsoleFault Stopped srrssr 103 9 8 11",
    "Stopped ConsoleFault Stopped srrsrs 110 13 9 11",
    "Stopped ConsoleFault Stopped srrssr 110 11 10 11",
    "Stopped ConsoleFault Stopped srrssr 112 11 11 11",
    "Stopped ConsoleFault Stopped srrssr 116 13 12 11",
    "Stopped ConsoleFault Stopped srrssr 133 14 13 16",
    "Stopped ConsoleFault Stopped srrssr 138 14 14 16",
    "Stopped ConsoleFault Stopped sssssr 138 13 15 16",
];

#[test]
fn each_call_of_the_console_that_fails_ends_the_job_process(rt: HostRuntime) {
    fails(&rt, rt.alloc(), Device::Console, &CONSOLES_ROWS);
}

const PAPERS_ROWS: [&str; 16] = [
    "Stopped Stopped PrintFault srrrrs 56 5 3 0",
    "Stopped Stopped PrintFault srrrrs 57 4 3 1",
    "Stopped Stopped PrintFault srrrrs 57 4 3 2",
    "Stopped Stopped PrintFault srrrrs 61 6 3 3",
    "Stopped Stopped PrintFault srrrrs 62 6 3 4",
    "Stopped Stopped PrintFault srrrrs 64 7 3 5",
    "Stopped Stopped PrintFault srrrrs 65 6 3 6",
    "Stopped Stopped PrintFault srrrrs 67 7 3 7",
    "Stopped Stopped PrintFault srrrrs 66 5 3 8",
    "Stopped Stopped PrintFault sssrrs 70 8 3 9",
    "Stopped Stopped PrintFault srrrrs 97 10 6 10",
    "Stopped Stopped PrintFault srrrrs 121 11 13 11",
    "Stopped Stopped PrintFault srrrrs 126 14 13 12",
    "Stopped Stopped PrintFault srrrrs 126 13 13 13",
    "Stopped Stopped PrintFault srrrrs 127 13 13 14",
    "Stopped Stopped PrintFault srrrrs 128 12 13 15",
];

#[test]
fn each_call_of_the_paper_that_fails_ends_the_output_process(rt: HostRuntime) {
    fails(&rt, rt.alloc(), Device::Paper, &PAPERS_ROWS);
}

const FILES_ROWS: [&str; 19] = [
    "Stopped DiskFault Stopped srrsrs 21 2 0 0",
    "Stopped DiskFault Stopped srrsss 23 2 1 0",
    "Stopped DiskFault Stopped srrssr 25 2 2 0",
    "Stopped DiskFault Stopped srrssr 46 5 2 0",
    "Stopped DiskFault Stopped srrssr 57 5 2 6",
    "Stopped DiskFault Stopped sssssr 60 6 3 6",
    "Stopped DiskFault Stopped srrssr 61 5 3 6",
    "Stopped DiskFault Stopped srrssr 77 8 5 10",
    "Stopped DiskFault Stopped srrssr 88 8 5 10",
    "Stopped DiskFault Stopped srrssr 93 11 6 10",
    "Stopped DiskFault Stopped srrssr 104 11 8 11",
    "Stopped DiskFault Stopped srsssr 107 11 9 11",
    "Stopped DiskFault Stopped srrsss 111 13 10 11",
    "Stopped DiskFault Stopped ssssss 111 11 11 11",
    "Stopped DiskFault Stopped ssrssr 114 12 12 11",
    "Stopped DiskFault Stopped srrssr 115 11 13 11",
    "Stopped DiskFault Stopped srrssr 123 10 13 15",
    "Stopped DiskFault Stopped srrssr 134 13 14 16",
    "Stopped DiskFault Stopped srrssr 137 14 14 16",
];

#[test]
fn each_call_of_the_files_that_fails_ends_the_job_process(rt: HostRuntime) {
    fails(&rt, rt.alloc(), Device::Files, &FILES_ROWS);
}
