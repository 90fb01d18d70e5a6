ghost use Rattle.program_lines.specs.Laws.{MoreCardsGoOn, AllCardsGiveAll, FewLines, FewLinesOfCode};

/// With more cards the lines of a program only go on; with all cards they are those of its meaning. Nothing
/// is done here: the contract is the law.
pub fn lines_go_on_with_more_cards()
    ensures goes_on { MoreCardsGoOn }
    ensures all { AllCardsGiveAll }
{}

/// A program has no more lines than its limit of ticks allows, whatever its cards.
pub fn each_program_has_few_lines()
    ensures compiled { FewLines }
    ensures code { FewLinesOfCode }
{}
