// The same sessions on three threads: they display and print what the network does, and end as it does;
// where a call of a device fails its own process has the fault, and console and paper have a part.

ghost use Rattle.std.specs.Prelude.{◌≡◌, ◌<◌, true};

use crate::deeds::Deeds;
use crate::failing_calls::Device;
use crate::net_runs::{Came, Devices, Failing, NONE_FAILS, Ran, Story, devices, seen};
use crate::sessions::{CONSOLE, DEEDS, PAPER};
use solo_devices::{Area, MemArea, MemSink, MemSource};
use solo_run::run_solo;
use std::alloc::Global;
use std::process::Abort;
use std::sync::Wait;
use std::thread::Threads;

// Runs on threads over these devices.
fn run_over<R: Threads + Wait + Sync + Abort>(rt: &R, alloc: Global, units: Devices) -> Ran
    requires cards { units.cards.live ≡ true }
    requires keys { units.typewriter.keys.live ≡ true }
    requires console { units.typewriter.console.live ≡ true }
    requires paper { units.paper.live ≡ true }
    requires files { 0 < ⟦<MemArea as Area>⟧.size units.files }
{
    match run_solo::<Deeds, MemSource, MemSource, MemSink, MemSink, R>(rt, alloc, units) {
        Ok(ran) => ran,
        Err(_) => panic!(rt; "memory"),
    }
}

// Runs a session on threads, where these calls fail.
fn run<R: Threads + Wait + Sync + Abort>(rt: &R, alloc: Global, failing: Failing) -> Came {
    let ran = run_over(rt, alloc, devices(rt, alloc, DEEDS, failing));
    let story = Story {
        text: Vec::new(alloc),
        delays: 0,
    };
    seen(rt, alloc, ran, story)
}

#[test]
fn a_session_on_threads_tells_what_the_network_tells(rt: HostRuntime) {
    for _ in 0..20 {
        let came = run(&rt, rt.alloc(), NONE_FAILS);
        assert!(&rt; came.ended.as_str() == "Done Done Done ------");
        assert!(&rt; came.console.as_slice() == CONSOLE.as_bytes());
        assert!(&rt; came.paper.as_slice() == PAPER.as_bytes());
    }
}

// Each of so many calls of a device fails in turn.
fn fails<R: Threads + Wait + Sync + Abort>(
    rt: &R,
    alloc: Global,
    device: Device,
    calls: u64,
    ended: &str,
) {
    for call in 0..calls {
        let came = run(rt, alloc, device.fails_at(call + 1));
        assert!(rt; came.ended.as_str().starts_with(ended), "{}", came.ended);
        assert!(rt; CONSOLE.as_bytes().starts_with(came.console.as_slice()));
        assert!(rt; PAPER.as_bytes().starts_with(came.paper.as_slice()));
    }
}

#[test]
fn each_call_that_fails_on_threads_ends_its_own_process(rt: HostRuntime) {
    let alloc = rt.alloc();
    fails(&rt, alloc, Device::Cards, 13, "ReadFault Stopped Stopped ");
    fails(&rt, alloc, Device::Keys, 8, "Stopped ReadFault Stopped ");
    fails(
        &rt,
        alloc,
        Device::Console,
        16,
        "Stopped ConsoleFault Stopped ",
    );
    fails(&rt, alloc, Device::Paper, 16, "Stopped Stopped PrintFault ");
    fails(&rt, alloc, Device::Files, 19, "Stopped DiskFault Stopped ");
}
