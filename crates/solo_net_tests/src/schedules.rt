// The same session under schedules: what is displayed and printed, and each event of one of them.

use crate::net_runs::{Came, NONE_FAILS, run};
use crate::sessions::{CONSOLE, COUNTS, DEEDS, EVENTS, PAPER};
use network_run::Rule;
use std::alloc::Global;
use std::process::Abort;

const ALL_DONE: &str = "Done Done Done ------";

// A run by a rule: all is displayed and printed, and no buffer was stopped.
fn told_by(rt: &impl Abort, alloc: Global, rule: Rule) -> Came {
    let came = run(rt, alloc, DEEDS, rule, NONE_FAILS);
    assert!(rt; came.ended.as_str() == ALL_DONE, "{}", came.ended);
    assert!(rt; came.console.as_slice() == CONSOLE.as_bytes());
    assert!(rt; came.paper.as_slice() == PAPER.as_bytes());
    came
}

// So each place of the three processes is reached.
#[test]
fn each_event_is_the_one_of_the_table(rt: HostRuntime) {
    let came = told_by(&rt, rt.alloc(), Rule::Numbered { number: 7 });
    assert!(rt; came.story.text.as_slice() == EVENTS.as_bytes());
}

#[test]
fn a_hundred_schedules_display_and_print_the_same(rt: HostRuntime) {
    let alloc = rt.alloc();
    for number in 0..100 {
        let _ = told_by(&rt, alloc, Rule::Numbered { number });
    }
    let _ = told_by(&rt, alloc, Rule::Least);
    let _ = told_by(&rt, alloc, Rule::Cyclic { last: 3 });
}

#[test]
fn events_and_delays_are_counted_by_the_table(rt: HostRuntime) {
    let alloc = rt.alloc();
    let mut number: u32 = 0;
    for (events, delays) in &COUNTS {
        let came = told_by(&rt, alloc, Rule::Numbered { number });
        assert!(rt; came.story.text.len() / 3 == *events, "{number}");
        assert!(rt; came.story.delays == *delays, "{number}");
        number = number.saturating_add(1);
    }
}
