//! The steps on the word of a gate: a process takes the turn with the state, and gives both up or hands them on.
ghost use Rattle.std.specs.Prelude.{◌≡◌, ◌≢◌, ℕ, ◌+◌, ◌*◌, ◌/◌, ◌%◌, ◌<◌, ◌≤◌, ◌==◌, ◌&&◌, not, true, false, [], ◌∷◌, None, Some, IfSome};
ghost use Rattle.monitor_gate.specs.declared.view.Stage.TheVariants.{Outside, Inside, Delayed};
ghost use Rattle.monitor_gate.specs.Views.{at_stage, completed};
ghost use Rattle.monitor_gate.specs.Steps.{Found};

use crate::kept::Kept;
use crate::kind::MonitorKind;
use crate::patience::Patience;
use crate::rule::{Delay, Enter, Gains, GateRule, Leave, Resume, Tell};
use crate::view::{Opening, View};
use atomic_table::{Seat, Shared};
use solo_base::ProcNo;
use std::hint::spin_loop;
use std::sync::Wait;
use std::time::Duration;

/// The word of a gate that is free. It is `INSIDE` while a process is inside, and `HANDED + p` once it is handed to process `p`.
pub(crate) const FREE: u64 = 0;

const INSIDE: u64 = 1;

const HANDED: u64 = 2;

// It is so much more while a process may be asleep on it.
const ASLEEP: u64 = 65536;

// It is as many times this more as the number of the process that would only be delayed inside.
const KEEPS_OUT: u64 = 131_072;

// What the system compares of the word before a process sleeps on it is its value below this.
const SLEPT_ON: u64 = 4_294_967_296;

// How often a process naps at most outside a gate that keeps it out, and how long each time at least.
const MOST_NAPS: u8 = 16;

const NAP_NANOSECONDS: u64 = 50_000;

pub(crate) type Place<M> = Seat<
    Option<Kept<<M as MonitorKind>::State>>,
    View<<M as MonitorKind>::State, <M as MonitorKind>::Entry>,
>;

pub(crate) type Word<M> = Shared<
    Option<Kept<<M as MonitorKind>::State>>,
    View<<M as MonitorKind>::State, <M as MonitorKind>::Entry>,
    Opening<<M as MonitorKind>::State>,
    GateRule<M>,
>;

// Whether a word shows this turn, and doesn't keep the process of this number out.
fn lets_in(found: u64, turn: u64, number: u64) -> bool
    ensures { result ≡ (found % 65536 == turn && not (found / 131072 == number)) }
{
    found % ASLEEP == turn && found / KEEPS_OUT != number
}

// Looks at the word until it lets the process in at this turn, as often as its patience says, and gives what
// it showed last.
fn look<M: MonitorKind>(word: &Word<M>, turn: u64, number: u64, patience: &mut Patience) -> u64
    requires { word.now.table_id.words ≡ 1 }
{
    let found = word.peek(0);
    if lets_in(found, turn, number) {
        return found;
    }
    for _ in 0..patience.looks() {
        spin_loop();
        let found = word.peek(0);
        if lets_in(found, turn, number) {
            patience.learn(true);
            return found;
        }
    }
    patience.learn(false);
    word.peek(0)
}

// Sleeps on the word that was found, until it changes.
fn sleep<M: MonitorKind, R: Wait>(rt: &R, word: &Word<M>, seat: &mut Place<M>, found: u64)
    requires { (seat.old.table_id ≡ word.now.table_id) × (word.now.table_id.words ≡ 1) }
    ensures { (seat.new.table_id ≡ seat.old.table_id) × (seat.new.me ≡ seat.old.me) }
{
    let asleep = found / KEEPS_OUT * KEEPS_OUT + ASLEEP + found % ASLEEP;
    if found != asleep && word.compare_exchange::<Tell>(seat, 0, found, asleep) != found {
        return;
    }
    word.park(rt, 0, (asleep % SLEPT_ON) as u32);
}

/// Naps as long as the word keeps the process out, so often at most.
pub(crate) fn nap<M: MonitorKind, R: Wait>(rt: &R, word: &Word<M>, number: ProcNo)
    requires { word.now.table_id.words ≡ 1 }
{
    for _ in 0..MOST_NAPS {
        let found = word.peek(0);
        if found / KEEPS_OUT != u64::from(number) {
            return;
        }
        let nap = Duration::from_nanos(NAP_NANOSECONDS);
        word.park_timeout(rt, 0, (found % SLEPT_ON) as u32, nap);
    }
}

/// Waits until the gate is free, and takes the turn.
pub(crate) fn take_free<M: MonitorKind, R: Wait>(
    rt: &R,
    word: &Word<M>,
    seat: &mut Place<M>,
    number: ProcNo,
    patience: &mut Patience,
) -> Kept<M::State>
    requires gate { (seat.old.table_id ≡ word.now.table_id) × (word.now.table_id.words ≡ 1) }
    requires outside { (seat.old.me.0.stage ≡ Outside) × (seat.old.me.1 ≡ []) }
    ensures inside { (seat.new.table_id ≡ seat.old.table_id) × (seat.new.me ≡ (at_stage (Inside result) seat.old.me.0, (0, None) ∷ [])) }
    ensures found { (opening : M.State) → seat.old.me.0.opening ≡ Some opening → Found M.ties opening seat.old.me.0.number seat.old.me.0.entries result }
    ensures free { (M.handed_to result ≡ None) × (M.waits seat.old.me.0.number result ≡ false) }
{
    let number = u64::from(number);
    for _ in rt.forever() {
        let found = look::<M>(word, FREE, number, patience);
        if found % ASLEEP != FREE {
            sleep::<M, R>(rt, word, seat, found);
        } else if word.compare_exchange::<Enter<M>>(seat, 0, found, found + INSIDE) == found {
            return word.exchange(seat, 0, None).unwrap();
        }
    }
    unreachable!()
}

// Puts the state back into the slot, which is empty.
fn put_back<M: MonitorKind>(word: &Word<M>, seat: &mut Place<M>, state: Kept<M::State>)
    requires gate { seat.old.table_id ≡ word.now.table_id }
    requires empty { seat.old.me.1 ≡ (0, None) ∷ [] }
    ensures { (seat.new.table_id ≡ seat.old.table_id) × (seat.new.me ≡ (seat.old.me.0, (0, Some state) ∷ [])) }
{
    match word.exchange(seat, 0, Some(state)) {
        None => {}
        Some(_) => unreachable!(),
    }
}

fn wake<M: MonitorKind>(word: &Word<M>, found: u64)
    requires { word.now.table_id.words ≡ 1 }
{
    if found / ASLEEP % 2 == 1 {
        word.wake_all(0);
    }
}

// What the word of a gate that is free shows besides: the process that would only be delayed in a state.
fn kept_out<M: MonitorKind>(state: &M::State) -> u64
    ensures { (number : ℕ) × (result ≡ 131072 * number) × (number < 256) }
{
    match M::would_wait(state) {
        None => 0,
        Some(p) => KEEPS_OUT * u64::from(p),
    }
}

// The word that a state leaves: free, or handed to the process that it names.
fn word_of<M: MonitorKind>(state: &M::State) -> u64
    ensures free { result % 65536 ≡ 0 → M.handed_to state.now ≡ None }
    ensures handed { (p : ℕ) → result % 65536 ≡ p + 2 → M.handed_to state.now ≡ Some p }
    ensures not_inside { result % 65536 ≢ 1 }
{
    let kept_out = kept_out::<M>(state);
    match M::handed(state) {
        None => FREE + kept_out,
        Some(p) => HANDED + u64::from(p) + kept_out,
    }
}

/// Gives up the turn with the state, or hands both to the process that the state names. The entry is completed.
pub(crate) fn hand_on<M: MonitorKind, G: Gains<M::Entry>>(
    word: &Word<M>,
    seat: &mut Place<M>,
    state: Kept<M::State>,
    entry: M::Entry,
)
    requires gate { (seat.old.table_id ≡ word.now.table_id) × (word.now.table_id.words ≡ 1) }
    requires empty { seat.old.me.1 ≡ (0, None) ∷ [] }
    requires alone { seat.old.me.0.joined ≡ [] }
    requires moved { (x : M.State) × (seat.old.me.0.stage ≡ Inside x) × M.moves seat.old.me.0.number x entry state }
    requires picked { G.gained ≡ entry ∷ [] }
    ensures { (seat.new.table_id ≡ seat.old.table_id) × (seat.new.me ≡ (completed (entry ∷ []) seat.old.me.0, [])) }
{
    let left = word_of::<M>(state.get());
    put_back::<M>(word, seat, state);
    let found = word.swap::<Leave<G>>(seat, 0, left);
    wake::<M>(word, found);
    drop(entry);
}

/// Gives up the turn with the state, in which the process waits.
pub(crate) fn rest<M: MonitorKind>(word: &Word<M>, seat: &mut Place<M>, state: Kept<M::State>)
    requires gate { (seat.old.table_id ≡ word.now.table_id) × (word.now.table_id.words ≡ 1) }
    requires empty { seat.old.me.1 ≡ (0, None) ∷ [] }
    requires rested { (x : M.State) × (seat.old.me.0.stage ≡ Inside x) × M.rests seat.old.me.0.number x state }
    ensures { (seat.new.table_id ≡ seat.old.table_id) × (seat.new.me ≡ (at_stage Delayed seat.old.me.0, [])) }
{
    let left = FREE + kept_out::<M>(state.get());
    put_back::<M>(word, seat, state);
    let found = word.swap::<Delay>(seat, 0, left);
    wake::<M>(word, found);
}

/// Waits until the gate is handed to the process, and takes the turn.
pub(crate) fn take_handed<M: MonitorKind, R: Wait>(
    rt: &R,
    word: &Word<M>,
    seat: &mut Place<M>,
    number: ProcNo,
    patience: &mut Patience,
) -> Kept<M::State>
    requires gate { (seat.old.table_id ≡ word.now.table_id) × (word.now.table_id.words ≡ 1) }
    requires delayed { (seat.old.me.0.stage ≡ Delayed) × (seat.old.me.1 ≡ []) }
    requires number { number ≡ seat.old.me.0.number }
    ensures inside { (seat.new.table_id ≡ seat.old.table_id) × (seat.new.me ≡ (at_stage (Inside result) seat.old.me.0, (0, None) ∷ [])) }
    ensures found { (opening : M.State) → seat.old.me.0.opening ≡ Some opening → Found M.ties opening seat.old.me.0.number seat.old.me.0.entries result }
    ensures handed { (M.handed_to result ≡ Some seat.old.me.0.number) × (M.waits seat.old.me.0.number result ≡ true) × M.wakes seat.old.me.0.number result }
{
    let number = u64::from(number);
    for _ in rt.forever() {
        let found = look::<M>(word, HANDED + number, number, patience);
        if found % ASLEEP != HANDED + number {
            sleep::<M, R>(rt, word, seat, found);
        } else if word.compare_exchange::<Resume<M>>(seat, 0, found, found - number - INSIDE)
            == found
        {
            return word.exchange(seat, 0, None).unwrap();
        }
    }
    unreachable!()
}
