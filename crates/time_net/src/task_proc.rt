ghost use Rattle.std.specs.Prelude.{◌≡◌, ◌<◌, length, slice_set, slice_index_or};
ghost use Rattle.time_net.specs.declared.task_proc.Phase.TheVariants.{Runs};
ghost use Rattle.time_net.specs.TaskSteps.{MayCallBy, stepped_how, stepped_table, stepped_task, told};
ghost use Rattle.real_time.specs.Table.{waited_by};

use network_run::Stepped;
use real_time::{TimeTable, Waited};

/// Where a task is.
#[derive(Clone, Copy, Debug, PartialEq, Eq)]
pub enum Phase {
    /// It runs, and then waits for its next start.
    Runs,
    /// It waits in its queue.
    Waits,
    /// It has left the table.
    Left,
    Ended,
}

/// A task, which counts its starts.
#[derive(Clone, Copy, Debug)]
pub struct TaskProc {
    runs: u32,
    phase: Phase,
}

impl TaskProc {
    /// A task that hasn't started yet.
    pub fn new() -> TaskProc
        ensures { result ≡ record { runs = 0; phase = Runs } }
    {
        TaskProc {
            runs: 0,
            phase: Phase::Runs,
        }
    }

    /// How often it has started.
    pub fn runs(&self) -> u32
        ensures { result ≡ self.now.runs }
    {
        self.runs
    }

    /// Where it is.
    pub fn place(&self) -> Phase
        ensures { result ≡ self.now.phase }
    {
        self.phase
    }

    // It goes on with what the table answered.
    fn give(&mut self, answer: Waited)
        ensures { self.new ≡ told self.old answer }
    {
        match answer {
            Waited::Starts(_) => {
                self.runs = self.runs.saturating_add(1);
                self.phase = Phase::Runs;
            }
            Waited::Leaves => self.phase = Phase::Left,
            Waited::Delayed => self.phase = Phase::Waits,
        }
    }
}

/// Takes the next action of the task at a place: it waits for its next start, goes on where the turn was
/// handed to it, or ends.
pub fn step_at(table: &mut TimeTable, tasks: &mut [TaskProc], place: usize) -> Stepped
    requires inside { place < length tasks.old }
    requires may { (d : TaskProcOf) → MayCallBy (slice_index_or tasks.old place d).phase table.old place }
    ensures how { (d : TaskProcOf) →
        result ≡ stepped_how (slice_index_or tasks.old place d).phase table.old place }
    ensures table { (d : TaskProcOf) →
        table.new ≡ stepped_table (slice_index_or tasks.old place d).phase table.old place }
    ensures tasks { (d : TaskProcOf) →
        tasks.new ≡ slice_set tasks.old place
        (stepped_task (slice_index_or tasks.old place d) table.old place) }
{
    let task = &mut tasks[place];
    step_task(table, task, place)
}

ghost use Rattle.time_net.specs.declared.task_proc.TaskProc.{TaskProc as TaskProcOf};

fn step_task(table: &mut TimeTable, task: &mut TaskProc, place: usize) -> Stepped
    requires may { MayCallBy task.old.phase table.old place }
    ensures how { result ≡ stepped_how task.old.phase table.old place }
    ensures table { table.new ≡ stepped_table task.old.phase table.old place }
    ensures task { task.new ≡ stepped_task task.old table.old place }
{
    match task.place() {
        Phase::Runs => wait(table, task, place),
        Phase::Waits => {
            let answer = table.resume(place);
            task.give(answer);
            Stepped::Resumed
        }
        Phase::Left | Phase::Ended => {
            task.phase = Phase::Ended;
            Stepped::Ended
        }
    }
}

// It waits for its next start.
fn wait(table: &mut TimeTable, task: &mut TaskProc, place: usize) -> Stepped
    requires may { MayCallBy Runs table.old place }
    ensures how { result ≡ stepped_how Runs table.old place }
    ensures table { table.new ≡ stepped_table Runs table.old place }
    ensures task { task.new ≡ told task.old (waited_by table.old place) }
{
    let answer = table.wait(place);
    task.give(answer);
    match answer {
        Waited::Starts(_) | Waited::Leaves => Stepped::Acted,
        Waited::Delayed => Stepped::Delayed,
    }
}
