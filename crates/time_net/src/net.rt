ghost use Rattle.std.specs.Prelude.{◌≡◌, ◌≤◌, ◌↔◌, ◌-◌, ℕ, List, [], true, refl, IsTrue};
ghost use Rattle.network_run.specs.Law.{Placed, MayStep, Steps};
ghost use Rattle.real_time.specs.States.{HasEnded, MayMove, OperatorMay, Prints, Stage, Tells, TimeState, Works, action_at};
ghost use Rattle.real_time.specs.TimesLaw.{timing};
ghost use Rattle.real_time.proofs.Unstuck.{sound};
ghost use Rattle.real_time.proofs.Sureness.{sure};
ghost use Rattle.time_net.specs.Falls.{net-falls};
ghost use Rattle.time_net.specs.Standing.{ActsAt, CallsFor};
ghost use Rattle.time_net.specs.TableCalls.{MayCallTable};
ghost use Rattle.time_net.specs.TaskSteps.{TasksStand};
ghost use Rattle.time_net.specs.TimeStands.{KeepsCounts, TimesMoves, TimesStand, OpensOver, events_ahead, tellers};

use crate::{Action, Call, Operator, Phase, TaskProc, call_table, step_at};
use network_run::{Falling, Network, Stepped, Sure};
use real_time::{MOST_TASKS, OPERATOR, Seat, TimeTable};
use solo_base::{Cause, Line, ProcNo};
use solo_devices::{PrintFault, Sink, Source, Typewriter};

/// The operator and the eight tasks at their time table, which are stepped one event at a time. They keep no
/// histories: contracts say which states they stand for.
#[derive(Drop)]
pub struct TimeNet<Y: Source, T: Sink> {
    pub typewriter: Typewriter<Y, T>,
    pub table: TimeTable,
    pub operator: Operator,
    /// Whether the operator waits in its call.
    pub waits: bool,
    pub tasks: [TaskProc; MOST_TASKS],
}

impl<Y: Source, T: Sink> TimeNet<Y, T> {
    /// The nine before their first step, at keys on which nothing was typed.
    pub fn make(source: Y, sink: T) -> Self
        requires { Y.taken source ≡ 0 }
        ensures { OpensOver (tellers Y.left Y.taken Y.faults T.given T.faults) result source sink }
    {
        TimeNet {
            typewriter: Typewriter::new(source, sink),
            table: TimeTable::new(),
            operator: Operator::new(),
            waits: false,
            tasks: [TaskProc::new(); MOST_TASKS],
        }
    }

    // The next action of the operator.
    fn step_operator(&mut self) -> Stepped
        requires may { MayStep timing
            (TimesStand (tellers Y.left Y.taken Y.faults T.given T.faults) self.old) 1 }
        ensures { (at : Placed timing
            (TimesStand (tellers Y.left Y.taken Y.faults T.given T.faults) self.old)) →
            MayMove at.state 1 →
            Steps timing (TimesStand (tellers Y.left Y.taken Y.faults T.given T.faults))
            (TimesMoves (tellers Y.left Y.taken Y.faults T.given T.faults))
            self.old self.new at.state 1 result }
    {
        match self.operator.next(&self.tasks) {
            Action::Reads => self.read(),
            Action::Displays(line) => self.display(&line),
            Action::Calls(call) => self.call(call),
            Action::Ends => self.end(),
            Action::Rests => Stepped::Ended,
        }
    }

    fn read(&mut self) -> Stepped
        requires live { self.old.typewriter.keys.live ≡ true }
        ensures { (at : Placed timing
            (TimesStand (tellers Y.left Y.taken Y.faults T.given T.faults) self.old)) →
            at.state.stage ≡ Works [] →
            Steps timing (TimesStand (tellers Y.left Y.taken Y.faults T.given T.faults))
            (TimesMoves (tellers Y.left Y.taken Y.faults T.given T.faults))
            self.old self.new at.state 1 result }
    {
        let answer = self.typewriter.accept();
        self.operator.read(answer);
        Stepped::Acted
    }

    fn display(&mut self, line: &Line) -> Stepped
        requires live { self.old.typewriter.console.live ≡ true }
        ensures { (at : Placed timing
            (TimesStand (tellers Y.left Y.taken Y.faults T.given T.faults) self.old)) →
            action_at at.state.stage at.state.seen ≡ Prints line.now →
            Steps timing (TimesStand (tellers Y.left Y.taken Y.faults T.given T.faults))
            (TimesMoves (tellers Y.left Y.taken Y.faults T.given T.faults))
            self.old self.new at.state 1 result }
    {
        match self.typewriter.display(line) {
            Ok(()) => {
                self.operator.show();
                Stepped::Acted
            }
            Err(PrintFault::Failed) => {
                self.operator.fail(Cause::ConsoleFault);
                Stepped::Acted
            }
            Err(PrintFault::NoMemory) => {
                self.operator.fail(Cause::NoMemory);
                Stepped::Acted
            }
        }
    }

    fn call(&mut self, call: Call) -> Stepped
        requires may { MayCallTable call self.old.waits self.old.table }
        ensures { (at : Placed timing
            (TimesStand (tellers Y.left Y.taken Y.faults T.given T.faults) self.old)) →
            CallsFor call at.state.stage → MayMove at.state 1 →
            Steps timing (TimesStand (tellers Y.left Y.taken Y.faults T.given T.faults))
            (TimesMoves (tellers Y.left Y.taken Y.faults T.given T.faults))
            self.old self.new at.state 1 result }
    {
        match call_table(&mut self.table, self.waits, call) {
            Stepped::Delayed => {
                self.waits = true;
                Stepped::Delayed
            }
            stepped => {
                self.waits = false;
                self.operator.go_on();
                stepped
            }
        }
    }

    fn end(&mut self) -> Stepped
        ensures { (at : Placed timing
            (TimesStand (tellers Y.left Y.taken Y.faults T.given T.faults) self.old)) →
            (place : ℕ) → at.state.stage ≡ Tells place [] →
            Steps timing (TimesStand (tellers Y.left Y.taken Y.faults T.given T.faults))
            (TimesMoves (tellers Y.left Y.taken Y.faults T.given T.faults))
            self.old self.new at.state 1 result }
    {
        self.operator.go_on();
        Stepped::Ended
    }
}

impl<Y: Source, T: Sink> Network for TimeNet<Y, T> {
    ghost law = { timing };

    ghost Stands = { λ net s. TimesStand (tellers Y.left Y.taken Y.faults T.given T.faults) net s };

    ghost Moves = { λ old event new.
        TimesMoves (tellers Y.left Y.taken Y.faults T.given T.faults) old event new };

    ghost Keeps = { λ old new. KeepsCounts (tellers Y.left Y.taken Y.faults T.given T.faults) old new };

    ghost left = { λ net s. events_ahead (tellers Y.left Y.taken Y.faults T.given T.faults) net s };

    ghost sound = { sound };

    ghost keeps_itself = { λ net. record { counted = λ keys console were. were; known = λ were. were } };

    ghost keeps_on = { λ first old new at event is stands moves kept. record {
      counted = λ keys console were. moves.keeps.counted keys console (kept.counted keys console were);
      known = λ were. moves.keeps.known (kept.known were);
    } };

    fn size(&self) -> ProcNo {
        9
    }

    fn has_ended(&self, p: ProcNo) -> bool {
        if p == OPERATOR {
            self.operator.has_ended()
        } else {
            task_ended(&self.tasks, p)
        }
    }

    fn enabled(&self, p: ProcNo) -> bool {
        if p == OPERATOR {
            let action = self.operator.next(&self.tasks);
            may_act(&action, &self.table)
        } else {
            task_enabled(&self.tasks, &self.table, p)
        }
    }

    fn step(&mut self, p: ProcNo) -> Stepped {
        if p == OPERATOR {
            self.step_operator()
        } else {
            step_at(&mut self.table, &mut self.tasks, task_place(p))
        }
    }
}

impl<Y: Source, T: Sink> Falling for TimeNet<Y, T> {
    ghost falls = { λ old new at event is stands moves.
        net-falls (tellers Y.left Y.taken Y.faults T.given T.faults) old new at.opening at.state event
        at.reached is moves.lines };

    ghost few = { λ net at. at.stands.within };

    fn holder(&self) -> Option<ProcNo> {
        None
    }
}

impl<Y: Source, T: Sink> Sure for TimeNet<Y, T> {
    ghost sure = { sure };
}

/// The place of a task by its number, counted from 0.
fn task_place(p: ProcNo) -> usize
    ensures { result ≡ p - 2 }
{
    usize::from(p.saturating_sub(2))
}

// Whether the table lets the operator act so.
fn may_act(action: &Action, table: &TimeTable) -> bool
    ensures { (stage : Stage) (seen : List (List ℕ)) → ActsAt action.now stage seen →
        IsTrue result ↔ OperatorMay (action_at stage seen) table.now }
{
    match action {
        Action::Reads | Action::Displays(_) | Action::Ends => true,
        Action::Calls(_) => table.may_enter(Seat::Operator),
        Action::Rests => false,
    }
}

// Whether the process of a number is a task that may go on.
fn task_enabled(tasks: &[TaskProc], table: &TimeTable, p: ProcNo) -> bool
    ensures { (s : TimeState) → TasksStand tasks.now s → table.now ≡ s.table →
        (p ≡ 1 → ⊥) → IsTrue result ↔ MayMove s p }
{
    if p == 0 {
        return false;
    }
    let place = task_place(p);
    if place >= tasks.len() {
        return false;
    }
    let task = &tasks[place];
    match task.place() {
        Phase::Runs | Phase::Waits => table.may_enter(Seat::Task(place)),
        Phase::Left => true,
        Phase::Ended => false,
    }
}

// Whether the task of a number has ended.
fn task_ended(tasks: &[TaskProc], p: ProcNo) -> bool
    ensures { (s : TimeState) → TasksStand tasks.now s → 2 ≤ p → p ≤ 9 → IsTrue result ↔ HasEnded s p }
{
    let place = task_place(p);
    if place >= tasks.len() {
        return true;
    }
    let task = &tasks[place];
    matches!(task.place(), Phase::Ended)
}
