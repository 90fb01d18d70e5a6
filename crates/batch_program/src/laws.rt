// The laws of programs under way. Nothing is done here: the contracts are the laws.

ghost use Rattle.batch_program.specs.Laws.{SomeOutcome, OneOutcome, FewLines};
ghost use Rattle.batch_program.specs.Laws.{MoreCardsGoOn, MoreCardsMoreLines, GivenLinesAreFirst};
ghost use Rattle.batch_program.specs.Laws.{ReachesItsMeaning, ComesToItsMeaning, ComesToItsEnding};
ghost use Rattle.batch_program.specs.Laws.{TellsItsMeaning, GivenAreItsLines};
ghost use Rattle.batch_program.specs.Laws.{ReachesItsRun, RunsGoOn};
ghost use Rattle.batch_program.specs.Laws.{MeaningsGoOn, MeaningsAddLines, MeaningsEnd};

/// With its cards so far a program of good code comes to one thing: it has ended, or it waits for a card.
pub fn each_program_comes_to_one_thing()
    ensures some { SomeOutcome }
    ensures one { OneOutcome }
{}

/// However many cards it is given, it prints no more lines than its limit of ticks allows.
pub fn each_program_prints_few_lines()
    ensures few { FewLines }
{}

/// More cards only go on with a run: the lines that are complete with some cards are the first of those with
/// more. What was given is the first of what the program comes to.
pub fn more_cards_only_add_lines()
    ensures goes_on { MoreCardsGoOn }
    ensures lines { MoreCardsMoreLines }
    ensures given { GivenLinesAreFirst }
{}

/// Code that does what its source means comes to what the source means with the same cards, and tells of
/// that; with all of them, it comes to its ending in the batch.
pub fn code_comes_to_what_its_source_means()
    ensures reaches { ReachesItsMeaning }
    ensures meaning { ComesToItsMeaning }
    ensures tells { TellsItsMeaning }
    ensures given { GivenAreItsLines }
    ensures ending { ComesToItsEnding }
{}

/// With its cards so far code comes to the run of its instructions, which goes on with more of them.
pub fn code_comes_to_its_run()
    ensures reaches { ReachesItsRun }
    ensures goes_on { RunsGoOn }
{}

/// What a program means with its cards so far goes on with more of them; with all of them it has ended, as in
/// the batch.
pub fn meanings_go_on_with_more_cards()
    ensures goes_on { MeaningsGoOn }
    ensures lines { MeaningsAddLines }
    ensures ending { MeaningsEnd }
{}
