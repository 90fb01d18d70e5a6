ghost use Rattle.stack_machine.specs.Laws.{SomeRun, OneRun, AnyWordsAreKept};
ghost use Rattle.stack_machine.specs.RunIn.{AnyRunIn};

/// A run is determined. Nothing is done here: the contract is the law, for those who speak of runs.
/// Verified code has a run for every limit and every list of fitting replies, and only one.
pub fn runs_are_determined()
    ensures some { SomeRun }
    ensures one { OneRun }
{}

/// What a write to the frame of an activation changes. Nothing is done here: the contract is the law. What is
/// written to an open activation is read from it, and the words of all others stay.
pub fn words_are_kept()
    ensures { AnyWordsAreKept }
{}

/// The run of code in a world of any kind. Nothing is done here: the contract is the law. What comes of
/// verified code in a world whose replies fit is its run by the replies that the world gives.
pub fn code_runs_in_any_world<W>()
    ensures { AnyRunIn W }
{}
