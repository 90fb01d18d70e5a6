ghost use Rattle.std.specs.Prelude.{◌≡◌, ℕ, ◌<◌, ◌==◌, nat_le, List, [], ◌∷◌, length, OnOk, OnErr, IsTrue, MatchOption, IfSome, Some};
ghost use Rattle.std.specs.Borrow.{sem};
ghost use Rattle.disk_files.specs.Answers.{FaultsOnly, stays_sound};
ghost use Rattle.solo_base.specs.declared.system_call.SysCall.{SysCall};
ghost use Rattle.solo_base.specs.declared.system_call.SysReply.{SysReply};
ghost use Rattle.stack_machine.specs.declared.running.Pause.TheVariants as pause;
ghost use Rattle.prog_stack.specs.declared.served.Served.TheVariants as served;
ghost use Rattle.prog_stack.specs.Shown.{shown_if};
ghost use Rattle.prog_stack.specs.Callers.{IsStack, TakesAtMost, MayPop, MayPush, TopAsks, TopAwaits, TopWell, RunsTop, TopBegins, with_reply};
ghost use Rattle.prog_stack.specs.Lending.{lends_top, top_machine};
ghost use Rattle.prog_stack.specs.Programs.{begun};
ghost use Rattle.prog_stack.specs.Serves.{ServesTop, PopsTop, GoesOn, served_fault, top_ended};
ghost use Rattle.std.specs.Option.{option_map};

use crate::frame::Frame;
use crate::own::Own;
use crate::running::{Running, begin};
use crate::served::{Ended, Served};
use disk_files::FileArea;
use solo_base::{ArgList, NoMemory, SysCall, SysReply};
use solo_devices::Area;
use stack_code::Verified;
use stack_machine::{Finish, Machine, Pause};
use std::alloc::Global;
use std::marker::Model;

/// How many programs stand on the stack of a command at most.
pub const PROGRAM_LIMIT: usize = 5;

/// The programs of one command: each but the top one waits for the one above it. There is room for N.
///
/// Contracts see the programs, the top one first.
#[derive(Drop)]
pub struct ProgStack<const N: usize> {
    alloc: Global,
    running: Option<Running>,
}

impl<const N: usize> Model for ProgStack<N> {
    ghost use Rattle.std.specs.Prelude.{List};
    ghost use Rattle.prog_stack.specs.declared.frame.Frame.{Frame};
    ghost use Rattle.prog_stack.specs.Shown.{shown_if};

    ghost Value = { List Frame };

    ghost view = { λ s. shown_if s.running };
}

impl<const N: usize> ProgStack<N> {
    /// The stack without a program.
    pub fn new(alloc: Global) -> ProgStack<N>
        ensures { result ≡ [] }
    {
        ProgStack {
            alloc,
            running: None,
        }
    }

    /// Whether there is no program.
    pub fn is_empty(&self) -> bool
        ensures { result ≡ (length self.now == 0) }
    {
        self.running.is_none()
    }

    /// Whether there is room for no further program.
    pub fn full(&self) -> bool
        ensures { result ≡ nat_le N (length self.now) }
    {
        match &self.running {
            None => N == 0,
            Some(running) => running.below.len() + 1 >= N,
        }
    }

    /// Puts a program on the stack, with its arguments and the ticks that it may take. A refusal leaves the
    /// stack, and drops the code.
    pub fn push(&mut self, code: Verified, args: ArgList, limit: u32) -> Result<(), NoMemory>
        requires room { length self.old < N }
        requires stack { IsStack N self.old }
        requires may { MayPush limit self.old }
        ensures pushed { OnOk result (self.new ≡ begun code limit args ∷ self.old) }
        ensures left { OnErr result (self.new ≡ self.old) }
        ensures well { OnOk result (TopBegins self.new) }
        ensures stack { IsStack N self.new }
    {
        match &mut self.running {
            Some(running) => running.push(self.alloc, code, args, limit),
            None => {
                let machine = begin(self.alloc, code, limit)?;
                let own = Own::new(args);
                self.running = Some(Running {
                    top: Frame { machine, own },
                    below: Vec::new(self.alloc),
                });
                Ok(())
            }
        }
    }

    /// The machine of the top program. `None` exactly where there is no program.
    pub fn top(&mut self) -> Option<&mut Machine>
        ensures* writes_back { sem 𝓛 (lends_top N.row self.entry result) }
        ensures value { option_map (λ m. m.now) result ≡ top_machine self.old }
    {
        match &mut self.running {
            Some(running) => Some(&mut running.top.machine),
            None => None,
        }
    }

    /// Lets the top program run up to its next pause. `None` exactly where there is no program.
    pub fn go(&mut self) -> Option<Pause>
        ensures runs { RunsTop self.old result self.new }
        ensures asks { (call : SysCall) → result ≡ Some (pause.Call call) → TopAsks call self.new }
        ensures well { TopWell self.new }
        ensures stack { IsStack N self.old → IsStack N self.new }
    {
        match &mut self.running {
            Some(running) => Some(running.go()),
            None => None,
        }
    }

    /// Gives the reply to the call for which the top program asks.
    pub fn answer(&mut self, reply: SysReply)
        requires { TopAwaits reply self.old }
        ensures answered { self.new ≡ with_reply reply self.old }
        ensures well { TopWell self.new }
        ensures stack { IsStack N self.old → IsStack N self.new }
    {
        match &mut self.running {
            Some(running) => running.answer(reply),
            None => unreachable!(),
        }
    }

    /// Serves the call for which the top program asks.
    pub fn serve<A: Area>(&mut self, call: SysCall, files: &mut FileArea<A>) -> Served
        requires stack { IsStack N self.old }
        requires asks { TopAsks call self.old }
        requires sound { IsTrue files.old.sound }
        ensures served { ServesTop N call self.old (A.pages files.old.area) result self.new
            (A.pages files.new.area) }
        ensures stack { GoesOn result (IsStack N self.new) }
        ensures awaits { (reply : SysReply) → result ≡ served.Reply reply → TopAwaits reply self.new }
        ensures device { (same : SysCall) → result ≡ served.Device same → TopAsks same self.new }
        ensures well { result ≡ served.Pushed → TopBegins self.new }
        ensures sound { files.new.sound ≡ stays_sound (served_fault result) }
        ensures cause { FaultsOnly (A.faults files.old.area) (A.faults files.new.area) (served_fault result) }
    {
        let full = self.full();
        match &mut self.running {
            Some(running) => running.serve(self.alloc, full, &call, files),
            None => unreachable!(),
        }
    }

    /// Takes the top program off if it has ended, and answers the RUN of the one below, if there is one.
    /// `None` exactly where there is no program, or it hasn't ended.
    pub fn pop(&mut self) -> Option<Ended>
        requires stack { IsStack N self.old }
        ensures ended { option_map (λ e. e.finish) result ≡ top_ended self.old }
        ensures popped { MatchOption result (self.new ≡ self.old)
            (λ e. PopsTop e.finish self.old e.args self.new) }
        ensures well { IfSome result (λ _. TopWell self.new) }
        ensures stack { IsStack N self.new }
    {
        match self.finished() {
            None => None,
            Some(finish) => {
                let args = pop_from(&mut self.running, finish);
                Some(Ended { finish, args })
            }
        }
    }

    // How the top program ended, if it has.
    fn finished(&self) -> Option<Finish>
        ensures ended { result ≡ top_ended self.now }
        ensures ticks { IfSome result (λ finish. TakesAtMost finish.ticks self.now) }
    {
        match &self.running {
            Some(running) => running.top.machine.finished(),
            None => None,
        }
    }
}

// Takes the top program off, which ended so, and answers the one below, if there is one. The arguments are
// those of the last program.
fn pop_from(running: &mut Option<Running>, finish: Finish) -> ArgList
    requires { MayPop finish.ticks (shown_if running.old) }
    ensures popped { PopsTop finish (shown_if running.old) result (shown_if running.new) }
    ensures well { TopWell (shown_if running.new) }
{
    let Some(mut programs) = running.take() else {
        unreachable!();
    };
    if programs.pop(finish) {
        *running = Some(programs);
        return ArgList::new();
    }
    programs.top.own.hand_over()
}
