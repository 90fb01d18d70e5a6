use crate::desk_runs::{each_brings, each_ends, ends};
use crate::made_code::{HALT, READ, TICK, WRITEINT, Written, load, push, store, sys};
use solo_base::ProgResult::Terminated;
use stack_code::Op;
use stack_machine::Finish;

/// RUN of the program in words 0 to 11.
const RUN: [Written; 5] = [TICK, (Op::SysG, 13, 0), WRITEINT, WRITEINT, HALT];

#[test]
fn each_reply_sets_its_words(rt: HostRuntime) {
    let table: [(&[Written], &[i16]); 7] = [
        (&[TICK, READ, WRITEINT, HALT], &[90]),
        // ACCEPT and DISPLAY
        (&[TICK, sys(3), sys(4), HALT], &[90]),
        // LENGTH
        (&[TICK, push(2), sys(9), WRITEINT, HALT], &[2, 17]),
        // LOOKUP
        (
            &[TICK, (Op::SysG, 10, 0), WRITEINT, WRITEINT, HALT],
            &[0, 0, 1, 3],
        ),
        (&RUN, &[0, 9, 5, 12]),
        // WRITEARG
        (
            &[TICK, push(3), push(8), (Op::SysG, 12, 0), HALT],
            &[3, 8, 0],
        ),
        // CLOSE
        (&[TICK, push(2), sys(6), HALT], &[2]),
    ];
    each_brings(&rt, rt.alloc(), &table);
    // the called program took 4 ticks
    let run: [(&[Written], u32, Finish); 1] = [(&RUN, 10, ends(Terminated, 1, 5))];
    each_ends(&rt, rt.alloc(), &run);
}

#[test]
fn a_reply_sets_its_array_and_no_other_word(rt: HostRuntime) {
    let table: [(&[Written], &[i16]); 2] = [
        // page 2 of file 1 into words 10 to 521, between a 7 and an 8
        (
            &[
                TICK,
                push(7),
                store(9),
                push(8),
                store(522),
                push(1),
                push(2),
                (Op::SysG, 7, 10),
                load(9),
                WRITEINT,
                load(10),
                WRITEINT,
                load(15),
                WRITEINT,
                load(521),
                WRITEINT,
                load(522),
                WRITEINT,
                HALT,
            ],
            &[1, 2, 7, 0, 5, 255, 8],
        ),
        // tag 3, number 7 and a name into words 4 to 15
        (
            &[
                TICK,
                (Op::SysG, 11, 4),
                WRITEINT,
                WRITEINT,
                load(4),
                WRITEINT,
                load(15),
                WRITEINT,
                load(16),
                WRITEINT,
                HALT,
            ],
            &[7, 3, 65, 76, 0],
        ),
    ];
    each_brings(&rt, rt.alloc(), &table);
}

#[test]
fn a_call_takes_its_values_and_its_array(rt: HostRuntime) {
    let table: [(&[Written], &[i16]); 2] = [
        // OPEN of the name in words 2 to 13
        (
            &[
                TICK,
                push(72),
                store(2),
                push(73),
                store(13),
                push(1),
                (Op::SysG, 5, 2),
                WRITEINT,
                HALT,
            ],
            &[1, 72, 73, 1],
        ),
        // words 10 to 521 to page 3 of file 2
        (
            &[
                TICK,
                push(66),
                store(10),
                push(255),
                store(521),
                push(2),
                push(3),
                (Op::SysG, 8, 10),
                HALT,
            ],
            &[2, 3, 66, 255],
        ),
    ];
    each_brings(&rt, rt.alloc(), &table);
}
