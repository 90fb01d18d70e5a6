ghost use Rattle.std.specs.Prelude.{◌≡◌, ◌≤◌, ◌<◌, ◌+◌, ◌∷◌, ℕ, List, length, map};
ghost use Rattle.std.specs.List.{list_any};
ghost use Rattle.real_time.specs.Typed.{Names, Plans, Stops};
ghost use Rattle.real_time.specs.Starts.{Change, Script, next_second, plan_of};
ghost use Rattle.real_time.specs.Awaiting.{Awaits, AllAwait, IsAhead, IsShort, Row, has_name};
ghost use Rattle.real_time.specs.Answers.{StandsForScript, StandsWithin, AnswersLine, name_text, start_text, stop_text, starts_at};

use crate::{Named, Plan, Planned, Task};
use arrayvec::ArrayVec;
use solo_base::Ident;

/// How many tasks there are at most.
pub const MOST_TASKS: usize = 8;

// Gives a plan to the task where it has this name.
fn change_if_named(task: &mut Task, name: &Ident, plan: Plan)
    requires { IsShort plan }
    ensures name { task.new.name ≡ task.old.name }
    ensures awaits { (accepted : List Change) (now : ℕ) → IsAhead plan now
        → Awaits (plan_of task.old.name accepted) now task.old
        → Awaits (plan_of task.old.name (record { name = name.now; plan = plan } ∷ accepted)) now task.new }
{
    if !task.has_name(name) {
        return;
    }
    task.change(plan);
}

/// Gives a plan to the tasks of a name.
pub fn change_named(tasks: &mut [Task], name: &Ident, plan: Plan)
    requires { IsShort plan }
    ensures names { map (λ row. row.name) tasks.new ≡ map (λ row. row.name) tasks.old }
    ensures awaits { (accepted : List Change) (now : ℕ) → IsAhead plan now → AllAwait accepted now tasks.old
        → AllAwait (record { name = name.now; plan = plan } ∷ accepted) now tasks.new }
{
    'changing: for place in 0..tasks.len() {
        let task = &mut tasks[place];
        change_if_named(task, name, plan);
    }
}

/// Whether a task has this name.
pub fn is_task(tasks: &[Task], name: &Ident) -> bool
    ensures { result ≡ list_any (has_name name.now) tasks.now }
{
    tasks.iter().any(|task| task.has_name(name))
}

/// The entry of TASK.
pub fn name(tasks: &mut ArrayVec<Task, MOST_TASKS>, name: Ident) -> Named
    ensures { (s : Script) → StandsForScript s tasks.old.items
        → AnswersLine s (Names name) (name_text result) tasks.new.items }
{
    if is_task(tasks.as_slice(), &name) {
        return Named::TaskExists;
    }
    if tasks.len() == MOST_TASKS {
        return Named::TableFull;
    }
    tasks.push(Task::new(name));
    Named::Done
}

/// The entry of START, which is handed the second that has passed last.
pub fn start(tasks: &mut [Task], name: &Ident, time: u32, period: u32, now: u32) -> Planned
    requires { period ≤ 1000000 }
    ensures { (s : Script) → s.now ≡ now → StandsForScript s tasks.old
        → AnswersLine s (Plans name.now time period) (start_text result) tasks.new }
{
    if !is_task(tasks, name) {
        return Planned::NoTask;
    }
    if time <= now {
        return Planned::TimeIsPast;
    }
    change_named(
        tasks,
        name,
        Plan::First {
            start: time,
            period,
        },
    );
    Planned::Done
}

/// The entry of STOP.
pub fn stop(tasks: &mut [Task], name: &Ident) -> Planned
    ensures { (s : Script) → StandsForScript s tasks.old
        → AnswersLine s (Stops name.now) (stop_text result) tasks.new }
{
    if !is_task(tasks, name) {
        return Planned::NoTask;
    }
    change_named(tasks, name, Plan::Never);
    Planned::Done
}

/// A second passes for the task at a place, once it has passed for those in front: whether the task starts.
pub fn pass(tasks: &mut [Task], place: usize, second: u32) -> bool
    requires place { place < length tasks.old }
    requires second { second ≤ 1000000 }
    ensures starts { (s : Script) → second ≡ s.now + 1 → StandsWithin s place tasks.old
        → result ≡ starts_at s place }
    ensures stands { (s : Script) → second ≡ s.now + 1 → StandsWithin s place tasks.old
        → StandsWithin s (place + 1) tasks.new }
{
    let task = &mut tasks[place];
    task.passes(second)
}

/// A second has passed once it has passed for each task, one after the other. Nothing is done here: the
/// contract is the law.
pub fn second_passes()
    ensures begins { (s : Script) (rows : List Row) → StandsForScript s rows → StandsWithin s 0 rows }
    ensures ends { (s : Script) (rows : List Row) → StandsWithin s (length rows) rows
        → StandsForScript (next_second s) rows }
{}
