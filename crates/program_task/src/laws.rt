// The laws of programs as tasks.

ghost use Rattle.program_task.specs.Laws.{NothingFollows, OneAfterAnother, CharacterRows, ArgumentRows, FileRows, RunRows};

/// Tasks may be put together in any order. Nothing is done here: the contract is the law.
pub fn tasks_follow_each_other<A, B, C>()
    ensures nothing { NothingFollows A }
    ensures another { OneAfterAnother A B C }
{}

/// Rows of the table of calls that were worked by hand. Nothing is done here: the rows are in the contract.
pub fn rows_of_the_table()
    ensures characters { CharacterRows }
    ensures arguments { ArgumentRows }
    ensures files { FileRows }
    ensures runs { RunRows }
{}
