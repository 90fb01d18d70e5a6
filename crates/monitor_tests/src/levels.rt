use level_monitor::*;

#[test]
fn two_processes_raise_and_lower_a_level(rt: HostRuntime) {
    let level = run_two(&rt, rt.alloc(), 10_000);
    assert!(rt; level == Ok(0));
}

#[test]
fn four_processes_raise_and_lower_a_level(rt: HostRuntime) {
    let level = run_four(&rt, rt.alloc(), 10_000);
    assert!(rt; level == Ok(0));
}

#[test]
fn two_processes_take_turns(rt: HostRuntime) {
    let level = run_in_turn(&rt, rt.alloc(), 10_000);
    assert!(rt; level == Ok(0));
}
