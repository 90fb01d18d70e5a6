//! Processes that change one level, each in its own thread.
ghost use Rattle.std.specs.Prelude.{◌≡◌, ◌≤◌, [], ◌∷◌, ◌++◌, length, IfOk};
ghost use Rattle.monitor_gate.specs.Ends.{left};
ghost use Rattle.level_monitor.specs.Level.{change_of};
ghost use Rattle.level_monitor.specs.Run.{CanRun, after};

use crate::kind::LevelKind;
use crate::level::Level;
use monitor_gate::{Gate, Pass, make};
use solo_base::NoMemory;
use std::alloc::Global;
use std::sync::Wait;
use std::thread::{Threads, join};

/// Changes the level once, and waits where it is at its end.
pub fn change_once<R: Threads + Wait + Sync>(
    gate: &Gate<LevelKind>,
    pass: &mut Pass<LevelKind>,
    rt: &R,
)
    requires { CanRun gate.now pass.old }
    ensures { pass.new ≡ left pass.old (change_of pass.old.view.number) }
{
    let process = pass.number();
    let mut inside = gate.enter(pass, rt);
    match inside.state().change(process) {
        Some(entry) => inside.leave(entry),
        None => {
            let mut inside = inside.delay(rt);
            let entry = inside.state().resume(process);
            inside.leave(entry);
        }
    }
}

/// Changes the level so many times.
pub fn change_often<R: Threads + Wait + Sync>(
    gate: &Gate<LevelKind>,
    mut pass: Pass<LevelKind>,
    times: u64,
    rt: &R,
) -> Pass<LevelKind>
    requires { CanRun gate.now pass }
    ensures { result ≡ after pass times }
{
    for _ in 0..times {
        change_once(gate, &mut pass, rt);
    }
    pass
}

/// One process raises the level and one lowers it, so many times each, side by side. Gives the level at the end.
pub fn run_two<R: Threads + Wait + Sync>(rt: &R, alloc: Global, times: u64) -> Result<u64, NoMemory>
    ensures { IfOk result (λ level. level ≡ 0) }
{
    let (gate, mut passes) = match make::<LevelKind>(alloc, Level::new(), 2) {
        Ok(made) => made,
        Err((_, refused)) => return Err(refused),
    };
    let (first, second) = last_two(&mut passes);
    let (mut first, second) = side_by_side(rt, &gate, first, second, times);
    gate.join(&mut first, second);
    Ok(gate.close(first).level)
}

fn last_two(passes: &mut Vec<Pass<LevelKind>>) -> (Pass<LevelKind>, Pass<LevelKind>)
    requires { 2 ≤ length passes.old.items }
    ensures { passes.old.items ≡ passes.new.items ++ result.0 ∷ result.1 ∷ [] }
{
    let second = passes.pop().unwrap();
    let first = passes.pop().unwrap();
    (first, second)
}

// Two processes change the level so many times each, in two threads.
fn side_by_side<R: Threads + Wait + Sync>(
    rt: &R,
    gate: &Gate<LevelKind>,
    first: Pass<LevelKind>,
    second: Pass<LevelKind>,
    times: u64,
) -> (Pass<LevelKind>, Pass<LevelKind>)
    requires first { CanRun gate.now first }
    requires second { CanRun gate.now second }
    ensures { (result.0 ≡ after first times) × (result.1 ≡ after second times) }
{
    join(
        rt,
        move || -> Pass<LevelKind>
            requires { CanRun gate.now first }
            ensures { result ≡ after first times }
        { change_often(gate, first, times, rt) },
        move || -> Pass<LevelKind>
            requires { CanRun gate.now second }
            ensures { result ≡ after second times }
        { change_often(gate, second, times, rt) },
    )
}

/// The same in one thread, where the processes take turns and nobody waits.
pub fn run_in_turn<R: Threads + Wait + Sync>(
    rt: &R,
    alloc: Global,
    times: u64,
) -> Result<u64, NoMemory>
    ensures { IfOk result (λ level. level ≡ 0) }
{
    let (gate, mut passes) = match make::<LevelKind>(alloc, Level::new(), 2) {
        Ok(made) => made,
        Err((_, refused)) => return Err(refused),
    };
    let (first, second) = last_two(&mut passes);
    let (mut first, second) = in_turn(rt, &gate, first, second, times);
    gate.join(&mut first, second);
    Ok(gate.close(first).level)
}

fn in_turn<R: Threads + Wait + Sync>(
    rt: &R,
    gate: &Gate<LevelKind>,
    mut first: Pass<LevelKind>,
    mut second: Pass<LevelKind>,
    times: u64,
) -> (Pass<LevelKind>, Pass<LevelKind>)
    requires first { CanRun gate.now first }
    requires second { CanRun gate.now second }
    ensures { (result.0 ≡ after first times) × (result.1 ≡ after second times) }
{
    for _ in 0..times {
        change_once(gate, &mut first, rt);
        change_once(gate, &mut second, rt);
    }
    (first, second)
}

/// Two processes raise the level and two lower it, so many times each, side by side. Gives the level at the end.
pub fn run_four<R: Threads + Wait + Sync>(
    rt: &R,
    alloc: Global,
    times: u64,
) -> Result<u64, NoMemory>
    ensures { IfOk result (λ level. level ≡ 0) }
{
    let (gate, mut passes) = match make::<LevelKind>(alloc, Level::new(), 4) {
        Ok(made) => made,
        Err((_, refused)) => return Err(refused),
    };
    let (third, fourth) = last_two(&mut passes);
    let (first, second) = last_two(&mut passes);
    let (mut first, second, third, fourth) = four_at_once(
        rt, &gate, first, second, third, fourth, times,
    );
    gate.join(&mut first, second);
    gate.join(&mut first, third);
    gate.join(&mut first, fourth);
    Ok(gate.close(first).level)
}

// Four processes change the level so many times each, in four threads.
fn four_at_once<R: Threads + Wait + Sync>(
    rt: &R,
    gate: &Gate<LevelKind>,
    first: Pass<LevelKind>,
    second: Pass<LevelKind>,
    third: Pass<LevelKind>,
    fourth: Pass<LevelKind>,
    times: u64,
) -> (
    Pass<LevelKind>,
    Pass<LevelKind>,
    Pass<LevelKind>,
    Pass<LevelKind>,
)
    requires left { CanRun gate.now first × CanRun gate.now second }
    requires right { CanRun gate.now third × CanRun gate.now fourth }
    ensures { (result.0 ≡ after first times) × (result.1 ≡ after second times) × (result.2 ≡ after third times) × (result.3 ≡ after fourth times) }
{
    let (left, right) = join(
        rt,
        move || -> (Pass<LevelKind>, Pass<LevelKind>)
            requires { CanRun gate.now first × CanRun gate.now second }
            ensures { (result.0 ≡ after first times) × (result.1 ≡ after second times) }
        { side_by_side(rt, gate, first, second, times) },
        move || -> (Pass<LevelKind>, Pass<LevelKind>)
            requires { CanRun gate.now third × CanRun gate.now fourth }
            ensures { (result.0 ≡ after third times) × (result.1 ≡ after fourth times) }
        { side_by_side(rt, gate, third, fourth, times) },
    );
    (left.0, left.1, right.0, right.1)
}
