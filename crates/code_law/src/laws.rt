// The laws of compiled code. Nothing is done here: the contracts are the laws.

ghost use Rattle.std.specs.Prelude.{◌≡◌, None};
ghost use Rattle.pascal_tree.specs.Program.{Program};
ghost use Rattle.pascal_tree.specs.Limits.{IsTree};
ghost use Rattle.pascal_tree.specs.DeclarationRules.{broken};
ghost use Rattle.code_law.specs.Suited.{AreSuited};
ghost use Rattle.code_law.specs.Law.{HasGoodCode, DoesWhatItMeans};

/// The code of a program that breaks none of the static rules and takes at most 8,192 instructions does what
/// the program means, with the same limit of ticks and the same replies: it makes the same calls in the same
/// order, waits at the same one, or ends with the same result, at the same line, after as many ticks.
pub fn compiled_code_does_what_its_source_means()
    ensures { DoesWhatItMeans }
{}

/// Such code breaks none of the rules of good code, so no compiled program is refused before it runs: it
/// finds what it pops, its jumps lead where nothing is on the stack, and a tick stands before each call.
pub fn compiled_code_is_good()
    ensures { HasGoodCode }
{}

/// A program that breaks none of the static rules has names, labels, arguments and frames as its code asks.
pub fn a_program_that_breaks_no_rule_suits_its_code()
    ensures { (p : Program) → IsTree p → broken p ≡ None → AreSuited p }
{}
