use relay_example::*;

const NUMBERS: [u64; 7] = [3, 1, 4, 1, 5, 9, 2];

#[test]
fn three_processes_pass_numbers_on(rt: HostRuntime) {
    for _ in 0..1_000 {
        let Ok(passed) = run_relay(&rt, rt.alloc(), &NUMBERS) else {
            panic!(rt; "no memory");
        };
        assert!(rt; passed.as_slice() == NUMBERS.as_slice());
    }
}

#[test]
fn no_number_is_passed_on(rt: HostRuntime) {
    let passed = run_relay(&rt, rt.alloc(), &[]);
    assert!(rt; passed.is_ok());
}
