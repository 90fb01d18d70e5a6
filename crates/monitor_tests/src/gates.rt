ghost use Rattle.std.specs.Prelude.{◌≡◌};

use monitor_gate::*;
use solo_base::ProcNo;
use std::sync::Wait;
use std::test::*;
use std::thread::{Threads, join};

// A number that any entry may change, and at which nobody waits.
struct Tally;

impl MonitorKind for Tally {
    ghost use Rattle.std.specs.Prelude.{false, None};
    ghost use Rattle.std.proofs.Common.{refl};

    type State = u64;

    type Entry = ();

    ghost handed_to = { λ _. None };

    ghost ties = { λ _ _ _. Unit {0} };

    ghost waits = { λ _ _. false };

    ghost wakes = { λ _ _. Unit {0} };

    ghost moves = { λ _ _ _ _. Unit {0} };

    ghost rests = { λ _ _ _. ⊥ };

    fn handed(_state: &u64) -> Option<ProcNo> {
        None
    }

    ghost completes = { λ opening before after lists p entry tied moved. (tt, record { out = refl; others = λ q other. refl; woken = λ q is. absurd (Prim.cc) }) };

    ghost suspends = { λ opening before after lists p tied rested. absurd rested };
}

// Each pass goes to a thread of its own, with the gate, and comes back.
fn carried<M: MonitorKind + Send, R: Threads + Wait + Sync>(
    rt: &R,
    gate: &Gate<M>,
    first: Pass<M>,
    second: Pass<M>,
) -> (Pass<M>, Pass<M>)
    ensures { (result.0 ≡ first) × (result.1 ≡ second) }
{
    join(
        rt,
        move || -> Pass<M>
            ensures { result ≡ first }
        {
            let _gate = gate;
            first
        },
        move || -> Pass<M>
            ensures { result ≡ second }
        {
            let _gate = gate;
            second
        },
    )
}

#[test]
fn gates_and_passes_cross_threads(rt: HostRuntime) -> Result<(), Fail> {
    let Ok((gate, mut passes)) = make::<Tally>(rt.alloc(), 7, 2) else {
        panic!(rt; "memory")
    };
    let second = passes.pop().unwrap();
    let first = passes.pop().unwrap();
    let (mut first, mut second) = carried(&rt, &gate, first, second);
    assert!(rt; first.number() == 1 && second.number() == 2);
    let mut inside = gate.enter(&mut second, &rt);
    let tally = inside.state();
    *tally = 8;
    inside.leave(());
    gate.join(&mut first, second);
    assert!(rt; gate.close(first) == 8);
    Ok(())
}
