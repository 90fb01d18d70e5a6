ghost use Rattle.std.specs.Prelude.{◌≡◌, [], ◌∷◌, Ok, Err};
ghost use Rattle.access_check.specs.Judgement.{judge};
ghost use Rattle.access_check.specs.Runs.{Enters, Leaves, at_first, led_to};
ghost use Rattle.access_check.specs.RunRows.{process_p, process_q, monitor_a, monitor_b};
ghost use Rattle.access_check.specs.RunRows.{to_itself, to_each_other, along_the_order};
ghost use Rattle.access_check.specs.RunRows.{LeadsToCycle, LeadsInside, IsHeldUp};
ghost use Rattle.access_check.specs.declared.fault.AccessFault.TheVariants as why;

/// Of two descriptions that aren't accepted, runs lead to a cycle: of one process, which waits for itself,
/// and of two. Nothing is done here: the contract is the law.
pub fn runs_into_cycles()
    ensures itself { judge to_itself ≡ Err (why.Backward monitor_a monitor_a) }
    ensures alone { LeadsToCycle to_itself (Enters process_p monitor_a ∷ []) process_p [] }
    ensures each_other { judge to_each_other ≡ Err (why.Backward monitor_b monitor_a) }
    ensures together { LeadsToCycle to_each_other
        (Enters process_p monitor_a ∷ Enters process_q monitor_b ∷ [])
        process_p (process_q ∷ []) }
{}

/// Of an accepted description, a process enters two monitors, so that the other one waits for it, and leaves
/// both. Nothing is done here: the contract is the law.
pub fn a_run_in_order()
    ensures accepted { judge along_the_order ≡ Ok record { monitors = 2; processes = 2 } }
    ensures enters { LeadsInside along_the_order
        (Enters process_p monitor_a ∷ Enters process_p monitor_b ∷ [])
        process_p (monitor_b ∷ monitor_a ∷ []) }
    ensures waits { IsHeldUp along_the_order (led_to at_first (Enters process_p monitor_a ∷ []))
        process_q monitor_a process_p }
    ensures leaves { LeadsInside along_the_order
        (Enters process_p monitor_a ∷ Enters process_p monitor_b ∷ Leaves process_p
        ∷ Leaves process_p ∷ Enters process_q monitor_a ∷ [])
        process_p [] }
{}
