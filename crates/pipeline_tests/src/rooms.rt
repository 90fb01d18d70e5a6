use readers_writers::*;

#[test]
fn readers_and_writers_come_and_go(rt: HostRuntime) {
    let Ok(room) = run_four(&rt, rt.alloc(), 10_000) else {
        panic!(rt; "no memory");
    };
    for p in 0..5 {
        assert!(rt; !room.inside[p]);
        assert!(rt; !room.waiting[p]);
    }
}
