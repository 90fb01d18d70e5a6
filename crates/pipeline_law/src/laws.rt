// The law is in a contract.
ghost use Rattle.std.specs.Prelude.{◌≡◌, ◌≤◌, ℕ, List, length};
ghost use Rattle.network_run.specs.Law.{AllEnded, AreEnabled, IsReached, NoneGoes, run};
ghost use Rattle.row_chain.specs.Chain.{row_of};
ghost use Rattle.row_law.specs.Counted.{events_of, total};
ghost use Rattle.row_law.specs.Determined.{AnswerAlike, PassAlike};
ghost use Rattle.row_law.specs.Ending.{EndsByCause};
ghost use Rattle.pipeline_law.specs.Steps.{Steps, law_of_steps, pipeline_of};

/// The processes of a pipeline: the first reads from a device, and the last shows what it takes.
pub trait PipelineOf {
    /// What goes through the buffers.
    type Item;

    /// What each process does, item by item.
    ghost steps: { ℕ → Steps Self.Item };

    /// How many places each buffer has.
    ghost places: { ℕ → ℕ };

    /// How many processes there are.
    ghost count: { ℕ };

    fn size() -> u8
        ensures { result ≡ count };

    /// Each buffer has a place.
    ghost some_place: { (b : ℕ) → 1 ≤ places b };
}

/// However many processes a pipeline has, and whatever its stages do: where nobody may go on, all have
/// ended; each
/// ends as its cause says; what goes through a buffer doesn't hang on the order of events; and the events
/// are bounded.
/// Nothing is done here: the contract is the law.
pub fn law_of_a_pipeline<P: PipelineOf>()
    ensures never_stuck { (o : ℕ) (s : (law_of_steps P.Item P.count P.steps P.places).State)
        → IsReached (law_of_steps P.Item P.count P.steps P.places)
        ((law_of_steps P.Item P.count P.steps P.places).opened o) s
        → NoneGoes (law_of_steps P.Item P.count P.steps P.places) s
        → AllEnded (law_of_steps P.Item P.count P.steps P.places) s }
    ensures ends { (o : ℕ) (s : (law_of_steps P.Item P.count P.steps P.places).State)
        → IsReached (law_of_steps P.Item P.count P.steps P.places)
        ((law_of_steps P.Item P.count P.steps P.places).opened o) s
        → EndsByCause (row_of (pipeline_of P.count P.steps)) s }
    ensures determined { (o u : ℕ) (s z : (law_of_steps P.Item P.count P.steps P.places).State)
        → IsReached (law_of_steps P.Item P.count P.steps P.places)
        ((law_of_steps P.Item P.count P.steps P.places).opened o) s
        → IsReached (law_of_steps P.Item P.count P.steps P.places)
        ((law_of_steps P.Item P.count P.steps P.places).opened u) z
        → AnswerAlike (row_of (pipeline_of P.count P.steps)) s z
        → PassAlike (row_of (pipeline_of P.count P.steps)) s z }
    ensures few_events { (o : ℕ) (events : List (law_of_steps P.Item P.count P.steps P.places).Event)
        → AreEnabled (law_of_steps P.Item P.count P.steps P.places)
        ((law_of_steps P.Item P.count P.steps P.places).opened o) events
        → length events ≤ total P.count (λ p. events_of (row_of (pipeline_of P.count P.steps))
        (run (law_of_steps P.Item P.count P.steps P.places)
        ((law_of_steps P.Item P.count P.steps P.places).opened o) events) p) }
{}
