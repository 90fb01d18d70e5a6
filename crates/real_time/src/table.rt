ghost use Rattle.std.specs.Prelude.{◌≡◌, ◌<◌, ◌+◌, ◌↔◌, length, IsTrue, IsSome, None, Some, slice_set};
ghost use Rattle.std.specs.List.{list_all};
ghost use Rattle.queue_var.specs.declared.turn.Turn.TheVariants.{Free, Handed};
ghost use Rattle.real_time.specs.declared.table.Seat.TheVariants.{Operator, Task};
ghost use Rattle.real_time.specs.Table.{MayComeIn, after_close, behind_join, after_resume, behind_wait, after_wake, all_left, behind_leave, empty_table, first_asleep, handed_on, sleeper_at, is_awaited, operator_resumed, seat_queue, resumed_by, next_turn, waited_by, woken_by};

use crate::MOST_TASKS;
use queue_var::{QueueVar, Turn};
use solo_base::ProcNo;
use std::array;
use std::marker::Model;

/// The number of the operator.
pub const OPERATOR: ProcNo = 1;

/// Who has a queue of the table.
#[derive(Clone, Copy, Debug)]
pub enum Seat {
    Operator,
    /// The task at a place, counted from 0.
    Task(usize),
}

/// What the operator is answered where it wakes a task.
#[derive(Clone, Copy, Debug)]
pub enum Woken {
    /// The task doesn't start in this second.
    NotDue,
    /// The task waited, and the turn is handed to it.
    Continued,
    /// The task doesn't wait yet: the operator waits for it.
    Delayed,
}

/// What a task is answered where it waits.
#[derive(Clone, Copy, Debug)]
pub enum Waited {
    /// It starts in this second.
    Starts(u32),
    /// The table is closed.
    Leaves,
    /// It waits in its queue.
    Delayed,
}

/// The monitor that the operator and the eight tasks share: each has a queue of its own.
#[derive(Debug, Drop)]
pub struct TimeTable {
    queues: [QueueVar; MOST_TASKS],
    operator: QueueVar,
    awaited: Option<usize>,
    left: [bool; MOST_TASKS],
    closed: bool,
    turn: Turn<Seat>,
    second: u32,
}

impl Model for TimeTable {
    ghost use Rattle.real_time.specs.Table.{Table};

    ghost Value = { Table };

    ghost view = { λ t. record {
      queues = t.queues;
      operator = t.operator;
      awaited = t.awaited;
      left = t.left;
      closed = t.closed;
      turn = t.turn;
      second = t.second;
    } };
}

impl TimeTable {
    /// Nobody waits, and the table is open.
    pub fn new() -> TimeTable
        ensures { result ≡ empty_table }
    {
        TimeTable {
            queues: array::from_fn(|_| QueueVar::new()),
            operator: QueueVar::new(),
            awaited: None,
            left: [false; MOST_TASKS],
            closed: false,
            turn: Turn::Free,
            second: 0,
        }
    }

    /// Whether a process may make its call: it waits and the turn is handed to it, or it doesn't wait and the
    /// turn is free.
    pub fn may_enter(&self, seat: Seat) -> bool
        ensures { IsTrue result ↔ MayComeIn self.now seat }
    {
        match self.turn {
            Turn::Free => self.is_outside(seat),
            Turn::Handed(handed) => same_seat(handed, seat),
        }
    }

    // Whether nobody is in the queue of a seat.
    fn is_outside(&self, seat: Seat) -> bool
        ensures { IsTrue result ↔ (seat_queue self.now seat ≡ None) }
    {
        match seat {
            Seat::Operator => self.operator.empty(),
            Seat::Task(place) => is_free(&self.queues, place),
        }
    }

    /// The operator's entry for a task at a second, by whether the task is due.
    pub fn wake(&mut self, place: usize, second: u32, due: bool) -> Woken
        requires free { self.old.turn ≡ Free }
        requires inside { self.old.operator ≡ None }
        requires place { place < length self.old.queues }
        ensures answer { result ≡ woken_by due (seat_queue self.old (Task place)) }
        ensures after { self.new ≡ after_wake self.old place second result }
    {
        if !due {
            return Woken::NotDue;
        }
        self.second = second;
        if is_free(&self.queues, place) {
            self.operator.delay(OPERATOR);
            self.awaited = Some(place);
            return Woken::Delayed;
        }
        self.turn = Turn::Handed(Seat::Task(place));
        Woken::Continued
    }

    /// A task's entry: it waits for its next start.
    pub fn wait(&mut self, place: usize) -> Waited
        requires free { self.old.turn ≡ Free }
        requires inside { seat_queue self.old (Task place) ≡ None }
        requires place { place < length self.old.queues }
        requires seat { place < length self.old.left }
        requires number { place + 2 < 256 }
        ensures answer { result ≡ waited_by self.old place }
        ensures after { self.new ≡ behind_wait self.old place result }
    {
        if self.closed {
            self.leave(place);
            return Waited::Leaves;
        }
        if is_awaited(self.awaited, place) {
            self.awaited = None;
            self.turn = Turn::Handed(Seat::Operator);
            return Waited::Starts(self.second);
        }
        delay_in(&mut self.queues, place, place as u8 + 2);
        Waited::Delayed
    }

    /// A task goes on in its entry, since the turn was handed to it.
    pub fn resume(&mut self, place: usize) -> Waited
        requires handed { self.old.turn ≡ Handed (Task place) }
        requires waits { IsSome (seat_queue self.old (Task place)) }
        requires place { place < length self.old.queues }
        requires seat { place < length self.old.left }
        ensures answer { result ≡ resumed_by self.old }
        ensures after { self.new ≡ after_resume self.old place }
    {
        resume_in(&mut self.queues, place);
        self.turn = Turn::Free;
        if self.closed {
            self.leave(place);
            return Waited::Leaves;
        }
        Waited::Starts(self.second)
    }

    /// The operator closes the table: each task leaves that waits, or comes to wait.
    pub fn close(&mut self)
        ensures { self.new ≡ after_close self.old }
    {
        self.closed = true;
        self.hand_on();
    }

    /// The operator's entry behind the close: whether all tasks have left. Else it waits.
    pub fn join(&mut self) -> bool
        requires inside { self.old.operator ≡ None }
        ensures answer { result ≡ all_left self.old }
        ensures after { self.new ≡ behind_join self.old }
    {
        if all_true(&self.left) {
            return true;
        }
        self.operator.delay(OPERATOR);
        false
    }

    /// The operator goes on in its entry, since the turn was handed to it.
    pub fn resume_operator(&mut self)
        requires { IsSome self.old.operator }
        ensures { self.new ≡ operator_resumed self.old }
    {
        self.operator.resume();
        self.turn = Turn::Free;
    }

    // A task leaves, and the next one goes on.
    fn leave(&mut self, place: usize)
        requires { place < length self.old.left }
        ensures { self.new ≡ behind_leave self.old place }
    {
        let left = &mut self.left;
        left[place] = true;
        self.hand_on();
    }

    // The next one goes on.
    fn hand_on(&mut self)
        ensures { self.new ≡ handed_on self.old }
    {
        self.turn = turn_to(first_asleep(0, &self.queues), self.operator.cont());
    }
}

fn same_seat(handed: Seat, seat: Seat) -> bool
    ensures { IsTrue result ↔ (handed ≡ seat) }
{
    match (handed, seat) {
        (Seat::Operator, Seat::Operator) => true,
        (Seat::Task(handed), Seat::Task(place)) => handed == place,
        (Seat::Operator, Seat::Task(_)) | (Seat::Task(_), Seat::Operator) => false,
    }
}

// Whether the operator waits for the task at a place.
fn is_awaited(awaited: Option<usize>, place: usize) -> bool
    ensures { result ≡ is_awaited awaited place }
{
    match awaited {
        None => false,
        Some(awaited) => awaited == place,
    }
}

// Whose turn it is, by the first task that sleeps, and by whether the operator waits.
fn turn_to(sleeper: Option<usize>, operator: Option<ProcNo>) -> Turn<Seat>
    ensures { result ≡ next_turn sleeper operator }
{
    match (sleeper, operator) {
        (Some(place), _) => Turn::Handed(Seat::Task(place)),
        (None, Some(_)) => Turn::Handed(Seat::Operator),
        (None, None) => Turn::Free,
    }
}

// The least place at which a task sleeps, of queues of which the first has this place.
fn first_asleep(place: usize, queues: &[QueueVar]) -> Option<usize>
    requires few { place + length queues.now < 256 }
    ensures { result ≡ first_asleep place queues.now }
{
    match queues {
        [] => None,
        [first, others @ ..] => {
            if first.empty() {
                first_asleep(place + 1, others)
            } else {
                Some(place)
            }
        }
    }
}

fn all_true(flags: &[bool]) -> bool
    ensures { result ≡ list_all (λ flag. flag) flags.now }
{
    flags.iter().all(|flag| *flag)
}

// Whether nobody is in the queue at a place.
fn is_free(queues: &[QueueVar], place: usize) -> bool
    ensures { IsTrue result ↔ (sleeper_at queues.now place ≡ None) }
{
    place >= queues.len() || queues[place].empty()
}

// Puts a process into the queue at a place.
fn delay_in(queues: &mut [QueueVar], place: usize, p: ProcNo)
    requires inside { place < length queues.old }
    requires empty { sleeper_at queues.old place ≡ None }
    ensures { queues.new ≡ slice_set queues.old place (Some p) }
{
    let queue = &mut queues[place];
    queue.delay(p);
}

// Takes the process out of the queue at a place.
fn resume_in(queues: &mut [QueueVar], place: usize)
    requires inside { place < length queues.old }
    requires waits { IsSome (sleeper_at queues.old place) }
    ensures { queues.new ≡ slice_set queues.old place None }
{
    let queue = &mut queues[place];
    queue.resume();
}
