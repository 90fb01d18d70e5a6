// Each law is in a contract.

ghost use Rattle.std.specs.Prelude.{◌≡◌, ◌<◌, ◌≤◌, ◌+◌, ◌*◌, ℕ, List, length, Some};
ghost use Rattle.solo_base.specs.declared.item.Item.{Item};
ghost use Rattle.network_run.specs.Law.{AreEnabled, IsReached};
ghost use Rattle.network_run.specs.Sound.{IsSoundLaw, IsSureLaw};
ghost use Rattle.real_time.specs.Typed.{Typed};
ghost use Rattle.real_time.specs.Starts.{Script, answer};
ghost use Rattle.real_time.specs.Deeds.{deeds_of, starts_of_line};
ghost use Rattle.real_time.specs.Owed.{lines_shown, starts_by};
ghost use Rattle.real_time.specs.States.{TimeState, Opening, TimeEvent, MayHappen, occurs, opened};
ghost use Rattle.real_time.specs.TimesLaw.{timing};
ghost use Rattle.real_time.specs.Orderly.{IsOrderly};
ghost use Rattle.real_time.specs.Timed.{IsTimed};
ghost use Rattle.real_time.specs.Weights.{lines_read, work_left};

/// No reached state of the operator and the eight tasks is stuck. In each of them, where the keys tell what
/// was typed, the console gained a part of the script's lines and each task saw a part of its starts, and all
/// of them where the operator is done. What the operator does with a line displays the line's answer, and
/// starts each task in its seconds. The time table is in order, and each event leaves less to do, but for
/// what a typed line adds; so over told keys no run is longer than the lines allow. Nothing is done here: the
/// contract is the law.
pub fn timing_law()
    ensures sound { IsSoundLaw timing }
    ensures sure { IsSureLaw timing }
    ensures timed { (o : Opening) (items : List Item) (s : TimeState) → o.keys ≡ Some items
        → IsReached timing (opened o) s → IsTimed o items s }
    ensures orderly { (o : Opening) (s : TimeState) → IsReached timing (opened o) s → IsOrderly s.table }
    ensures falls { (o : Opening) (s : TimeState) (event : TimeEvent) → IsReached timing (opened o) s
        → MayHappen s event
        → work_left (occurs s event) < work_left s + 90000000 * lines_read event }

    // So no run over told keys has more events: a line is at most a million seconds for eight tasks.
    ensures bound { (o : Opening) (items : List Item) (events : List TimeEvent) → o.keys ≡ Some items
        → AreEnabled timing (opened o) events → length events ≤ 90000000 * length items + 1000 }

    // What the operator does with a line.
    ensures lines { (s : Script) (line : Typed) → lines_shown (deeds_of s line) ≡ answer s line }
    ensures starts { (place : ℕ) (s : Script) (line : Typed)
        → starts_by place (deeds_of s line) ≡ starts_of_line place s line }
{}
