//! The passes of a new gate are dealt.
ghost use Rattle.std.specs.Prelude.{◌≡◌, ◌+◌, ◌<◌, ◌≤◌, [], Some, vec_len, vec_capacity};
ghost use Rattle.monitor_gate.specs.declared.view.Stage.TheVariants.{Making};
ghost use Rattle.monitor_gate.specs.Views.{fresh, maker};
ghost use Rattle.monitor_gate.specs.Ends.{new_passes};

use crate::kind::MonitorKind;
use crate::pass::{GatePass, Pass};
use crate::patience::Patience;
use crate::rule::Deal;
use crate::turn::{Place, Word};

// The next pass, of a maker that has made so many.
fn next_pass<M: MonitorKind>(word: &Word<M>, seat: &mut Place<M>, made: u8) -> Pass<M>
    requires gate { (seat.old.table_id ≡ word.now.table_id) × (word.now.table_id.words ≡ 1) }
    requires making { seat.old.me ≡ (maker word.now.key.state.value made, []) }
    requires room { (made < 255) × (made + 1 ≤ word.now.key.passes) }
    ensures maker { (seat.new.table_id ≡ seat.old.table_id) × (seat.new.me ≡ (maker word.now.key.state.value (made + 1), [])) }
    ensures pass { (result.gate ≡ word.now.table_id) × (result.view ≡ fresh (Some word.now.key.state.value) (made + 1)) }
{
    let seat = word.split_seat::<Deal>(seat);
    GatePass {
        number: made + 1,
        seat,
        patience: Patience::new(),
    }
}

/// Deals the passes 1 to `passes` of a new gate into a vector that has room for them.
pub(crate) fn deal<M: MonitorKind>(
    word: &Word<M>,
    mut seat: Place<M>,
    passes: u8,
    dealt: &mut Vec<Pass<M>>,
)
    requires gate { (seat.table_id ≡ word.now.table_id) × (word.now.table_id.words ≡ 1) }
    requires making { seat.me ≡ (maker word.now.key.state.value 0, []) }
    requires all { passes ≡ word.now.key.passes }
    requires empty { dealt.old.items ≡ [] }
    requires room { passes ≤ vec_capacity dealt.old }
    ensures { dealt.new.items ≡ new_passes word.now.table_id word.now.key.state.value passes }
{
    for made in 0..passes {
        dealt.push_reserved(next_pass::<M>(word, &mut seat, made));
    }
}
