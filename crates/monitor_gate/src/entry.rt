//! A process enters a gate, leaves it, or is delayed.
ghost use Rattle.std.specs.Prelude.{◌≡◌, true, false, [], Some, None};
ghost use Rattle.std.specs.Borrow.{sem, follows};
ghost use mir.Syntax.{named};
ghost use Rattle.monitor_gate.specs.contracts.inside.Inside.{the_row};
ghost use Rattle.monitor_gate.specs.contracts.kept.Kept.{the_row as kept_row};
ghost use Rattle.monitor_gate.specs.Steps.{Found};
ghost use Rattle.monitor_gate.specs.Ends.{IsPassOf, IsOutside, entered, left};
ghost use Rattle.monitor_gate.specs.Inside.{state_of, gate_of, pass_of, number_of, lender_of, HasTaken, IsEntered, with_state};

use crate::gate::Gate;
use crate::inside::Inside;
use crate::kind::MonitorKind;
use crate::pass::Pass;
use crate::turn::{hand_on, nap, rest, take_free, take_handed};
use std::marker::Brand;
use std::sync::Wait;
use std::thread::Threads;

impl<M: MonitorKind> Gate<M> {
    /// Naps a few times at most, as long as the process would only be delayed inside. It enters nothing.
    pub fn nap<R: Threads + Wait + Sync>(&self, pass: &Pass<M>, rt: &R) {
        nap::<M, R>(rt, &self.table.shared, pass.number);
    }

    /// Waits until the gate is free, and enters. The state is tied to the lists of all passes, and its turn isn't handed.
    pub fn enter<'a, R: Threads + Wait + Sync>(
        &'a self,
        pass: &'a mut Pass<M>,
        rt: &R,
    ) -> Inside<'a, M>
        requires pass { IsPassOf self.now pass.old }
        requires outside { IsOutside pass.old × (pass.old.view.joined ≡ []) }

        ensures gate { gate_of result ≡ self.now }
        ensures lender { lender_of result ≡ pass.entry.ghost_name }
        ensures pass { (pass_of result ≡ entered pass.old (state_of result)) × IsEntered result }
        ensures taken { HasTaken result (state_of result) }

        ensures tied { Found M.ties self.now.opening pass.old.view.number pass.old.view.entries (state_of result) }
        ensures free { M.handed_to (state_of result) ≡ None }
        ensures not_waiting { M.waits pass.old.view.number (state_of result) ≡ false }
    {
        let word = &self.table.shared;
        let state = take_free::<M, R>(rt, word, &mut pass.seat, pass.number, &mut pass.patience);
        Inside {
            pass,
            gate: self,
            state,
        }
    }
}

impl<'a, M: MonitorKind> Inside<'a, M> {
    /// The state. When the borrow ends, the process has what was written through it.
    pub fn state(&mut self) -> &mut M::State
        ensures* writes_back { sem 𝓛 (follows (the_row (record { mir = named 1; lft = [] }) M.row (kept_row M.State.row) M.State.row M.Entry.row M.MonitorKind) M.State.row self.entry.ghost_name result.ghost_name (with_state self.old)) }
        ensures value { result.now ≡ state_of self.old }
    {
        self.state.get_mut()
    }

    /// Leaves, with this entry completed. The gate goes to the process to which the state hands its turn, and is free where there is none.
    pub fn leave(self, entry: M::Entry)
        requires entered { IsEntered self }
        requires moved { (x : M.State) × HasTaken self x × M.moves (number_of self) x entry (state_of self) }
        ensures { self.exit.0.now ≡ left (pass_of self.entry) entry }
    {
        let Inside { pass, gate, state } = self;
        hand_on::<M, Brand>(&gate.table.shared, &mut pass.seat, state, entry);
    }

    /// Leaves the gate free, and waits until it is handed to this process.
    pub fn delay<R: Threads + Wait + Sync>(self, rt: &R) -> Inside<'a, M>
        requires entered { IsEntered self }
        requires rested { (x : M.State) × HasTaken self x × M.rests (number_of self) x (state_of self) }

        ensures gate { gate_of result ≡ gate_of self.entry }
        ensures lender { lender_of result ≡ lender_of self.entry }
        ensures pass { (pass_of result ≡ entered (pass_of self.entry) (state_of result)) × IsEntered result }
        ensures taken { HasTaken result (state_of result) }

        ensures tied { Found M.ties (gate_of self.entry).opening (number_of self.entry) (pass_of self.entry).view.entries (state_of result) }
        ensures handed { M.handed_to (state_of result) ≡ Some (number_of self.entry) }
        ensures waiting { M.waits (number_of self.entry) (state_of result) ≡ true }
        ensures woken { M.wakes (number_of self.entry) (state_of result) }
    {
        let Inside { pass, gate, state } = self;
        let word = &gate.table.shared;
        let number = pass.number;
        rest::<M>(word, &mut pass.seat, state);
        let state = take_handed::<M, R>(rt, word, &mut pass.seat, number, &mut pass.patience);
        Inside { pass, gate, state }
    }
}
