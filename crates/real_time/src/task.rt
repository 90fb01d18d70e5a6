ghost use Rattle.std.specs.Prelude.{◌≡◌, ◌<◌, ◌≤◌, ◌+◌, ℕ, Some, None};
ghost use Rattle.real_time.specs.declared.plan.Plan.{Plan};
ghost use Rattle.real_time.specs.declared.plan.Plan.TheVariants.{Never, First};
ghost use Rattle.real_time.specs.Awaiting.{Row, Awaits, IsAhead, IsShort, Passed, has_name, next_behind, unplanned};

use crate::Plan;
use solo_base::Ident;
use std::marker::Model;

/// A task that has a name, with the second of its next start.
#[derive(Debug, Drop)]
pub struct Task {
    name: Ident,
    next: Option<u32>,
    period: u32,
}

impl Model for Task {
    ghost use Rattle.std.specs.Prelude.{◌≤◌};
    ghost use Rattle.real_time.specs.Awaiting.{Row};

    ghost Value = { Row };

    ghost view = { λ task. record { name = task.name; next = task.next; period = task.period } };

    ghost invariant = { λ task. task.period ≤ 1000000 };
}

impl Default for Task {
    /// The row in a place of a table that no task has.
    fn default() -> Task {
        match Ident::of(b"T") {
            Some(name) => Task::new(name),
            None => unreachable!(),
        }
    }
}

impl Task {
    /// A task without a plan.
    pub fn new(name: Ident) -> Task
        ensures row { result ≡ unplanned name }
        ensures plan { (now : ℕ) → Awaits Never now result }
    {
        Task {
            name,
            next: None,
            period: 0,
        }
    }

    /// Its name.
    pub fn name(&self) -> &Ident
        ensures { result.now ≡ self.now.name }
    {
        &self.name
    }

    /// Whether this is its name.
    pub fn has_name(&self, name: &Ident) -> bool
        ensures { result ≡ has_name name.now self.now }
    {
        self.name.bytes() == name.bytes()
    }

    /// It has this plan from now on. A period is at most 1,000,000 seconds.
    pub fn change(&mut self, plan: Plan)
        requires { IsShort plan }
        ensures name { self.new.name ≡ self.old.name }
        ensures awaits { (now : ℕ) → IsAhead plan now → Awaits plan now self.new }
    {
        match plan {
            Plan::Never => self.stop(),
            Plan::First { start, period } => self.plan(start, period),
        }
    }

    // It starts first at a time, and then each so many seconds; with a period of 0 never again.
    fn plan(&mut self, time: u32, period: u32)
        requires { period ≤ 1000000 }
        ensures row { self.new ≡ record self.old { next = Some time; period = period } }
        ensures plan { (now : ℕ) → now < time → Awaits (First time period) now self.new }
    {
        self.next = Some(time);
        self.period = period;
    }

    // It doesn't start any more.
    fn stop(&mut self)
        ensures row { self.new ≡ record self.old { next = None } }
        ensures plan { (now : ℕ) → Awaits Never now self.new }
    {
        self.next = None;
    }

    /// Whether it starts in a second, which is the one behind those that have passed.
    pub fn passes(&mut self, second: u32) -> bool
        requires { second ≤ 1000000 }
        ensures name { self.new.name ≡ self.old.name }
        ensures passes { (plan : Plan) (now : ℕ) → second ≡ now + 1 → Awaits plan now self.old
            → Passed plan second self.old self.new result }
    {
        let Some(next) = self.next else {
            return false;
        };
        if next != second {
            return false;
        }
        self.next = next_behind(second, self.period);
        true
    }
}

// The start behind one in this second, where the period isn't 0.
fn next_behind(second: u32, period: u32) -> Option<u32>
    requires few { second ≤ 1000000 }
    requires short { period ≤ 1000000 }
    ensures { result ≡ next_behind second period }
{
    if period == 0 {
        return None;
    }
    Some(second + period)
}
