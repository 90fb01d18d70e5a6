//! Processes that use one room, each in its own thread.
ghost use Rattle.std.specs.Prelude.{◌≡◌, ℕ, ◌≤◌, true, false, [], ◌∷◌, ◌++◌, length, IfOk};
ghost use Rattle.monitor_gate.specs.Ends.{left};
ghost use Rattle.readers_writers.specs.declared.room.Use.TheVariants.{Begin, End};
ghost use Rattle.readers_writers.specs.Room.{inside_behind, is_inside};
ghost use Rattle.readers_writers.specs.Run.{MayRun, used};

use crate::kind::RoomKind;
use crate::room::Room;
use monitor_gate::{Gate, Pass, make};
use solo_base::NoMemory;
use std::alloc::Global;
use std::sync::Wait;
use std::thread::{Threads, join};

/// Uses the room so many times.
#[tactic(auto, using(crate::proofs::Runs::may_more))]
pub fn use_often<R: Threads + Wait + Sync>(
    gate: &Gate<RoomKind>,
    mut pass: Pass<RoomKind>,
    times: u64,
    rt: &R,
) -> Pass<RoomKind>
    requires { MayRun gate.now pass }
    ensures { result ≡ used pass times }
{
    for _ in 0..times {
        begin(gate, &mut pass, rt);
        end(gate, &mut pass, rt);
    }
    pass
}

// Begins, and waits where it may not.
fn begin<R: Threads + Wait + Sync>(gate: &Gate<RoomKind>, pass: &mut Pass<RoomKind>, rt: &R)
    requires { MayRun gate.now pass.old }
    ensures { pass.new ≡ left pass.old Begin }
{
    let process = pass.number();
    let mut inside = gate.enter(pass, rt);
    match inside.state().begin(process) {
        Some(entry) => inside.leave(entry),
        None => {
            let mut inside = inside.delay(rt);
            let entry = inside.state().resume(process);
            inside.leave(entry);
        }
    }
}

// Ends, behind a begin.
fn end<R: Threads + Wait + Sync>(gate: &Gate<RoomKind>, pass: &mut Pass<RoomKind>, rt: &R)
    requires runs { MayRun gate.now pass.old }
    requires began { inside_behind false pass.old.view.entries ≡ true }
    ensures { pass.new ≡ left pass.old End }
{
    let process = pass.number();
    let mut inside = gate.enter(pass, rt);
    let entry = inside.state().end(process);
    inside.leave(entry);
}

/// Two processes read and two write, so many times each, side by side. Gives the room at the end, in which
/// nobody is.
pub fn run_four<R: Threads + Wait + Sync>(
    rt: &R,
    alloc: Global,
    times: u64,
) -> Result<Room, NoMemory>
    ensures { IfOk result (λ room. (p : ℕ) → 1 ≤ p → p ≤ 4 → is_inside p room ≡ false) }
{
    let (gate, mut passes) = match make::<RoomKind>(alloc, Room::new(), 4) {
        Ok(made) => made,
        Err((_, refused)) => return Err(refused),
    };
    let (third, fourth) = last_two(&mut passes);
    let (first, second) = last_two(&mut passes);
    let (mut first, second, third, fourth) = four_at_once(
        rt, &gate, first, second, third, fourth, times,
    );
    gate.join(&mut first, second);
    gate.join(&mut first, third);
    gate.join(&mut first, fourth);
    Ok(gate.close(first))
}

fn last_two(passes: &mut Vec<Pass<RoomKind>>) -> (Pass<RoomKind>, Pass<RoomKind>)
    requires { 2 ≤ length passes.old.items }
    ensures { passes.old.items ≡ passes.new.items ++ result.0 ∷ result.1 ∷ [] }
{
    let second = passes.pop().unwrap();
    let first = passes.pop().unwrap();
    (first, second)
}

// Two processes use the room so many times each, in two threads.
fn side_by_side<R: Threads + Wait + Sync>(
    rt: &R,
    gate: &Gate<RoomKind>,
    first: Pass<RoomKind>,
    second: Pass<RoomKind>,
    times: u64,
) -> (Pass<RoomKind>, Pass<RoomKind>)
    requires first { MayRun gate.now first }
    requires second { MayRun gate.now second }
    ensures { (result.0 ≡ used first times) × (result.1 ≡ used second times) }
{
    join(
        rt,
        move || -> Pass<RoomKind>
            requires { MayRun gate.now first }
            ensures { result ≡ used first times }
        { use_often(gate, first, times, rt) },
        move || -> Pass<RoomKind>
            requires { MayRun gate.now second }
            ensures { result ≡ used second times }
        { use_often(gate, second, times, rt) },
    )
}

// Four processes use the room so many times each, in four threads.
fn four_at_once<R: Threads + Wait + Sync>(
    rt: &R,
    gate: &Gate<RoomKind>,
    first: Pass<RoomKind>,
    second: Pass<RoomKind>,
    third: Pass<RoomKind>,
    fourth: Pass<RoomKind>,
    times: u64,
) -> (
    Pass<RoomKind>,
    Pass<RoomKind>,
    Pass<RoomKind>,
    Pass<RoomKind>,
)
    requires left { MayRun gate.now first × MayRun gate.now second }
    requires right { MayRun gate.now third × MayRun gate.now fourth }
    ensures { (result.0 ≡ used first times) × (result.1 ≡ used second times)
        × (result.2 ≡ used third times) × (result.3 ≡ used fourth times) }
{
    let (left, right) = join(
        rt,
        move || -> (Pass<RoomKind>, Pass<RoomKind>)
            requires { MayRun gate.now first × MayRun gate.now second }
            ensures { (result.0 ≡ used first times) × (result.1 ≡ used second times) }
        { side_by_side(rt, gate, first, second, times) },
        move || -> (Pass<RoomKind>, Pass<RoomKind>)
            requires { MayRun gate.now third × MayRun gate.now fourth }
            ensures { (result.0 ≡ used third times) × (result.1 ≡ used fourth times) }
        { side_by_side(rt, gate, third, fourth, times) },
    );
    (left.0, left.1, right.0, right.1)
}
