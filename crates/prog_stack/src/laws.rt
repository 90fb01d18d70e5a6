// The law of stacks of programs.

ghost use Rattle.prog_stack.specs.Laws.{Begins, RunsItself, Asked, ServedSo, PoppedSo};
ghost use Rattle.prog_stack.specs.WorkLeft.{BeginsWithin, ItselfNeverRises, ReplyLowers, RunLowers, EndLowers};

/// A stack of programs does what the task of its command does. Nothing is done here: the contract is the law,
/// of what the calls of a stack and of its machines say.
pub fn stacks_do_their_tasks()
    ensures begins { Begins }
    ensures runs { RunsItself }
    ensures asked { Asked }
    ensures served { ServedSo }
    ensures popped { PoppedSo }
{}

/// Each call that is answered leaves less to the programs of a stack, and so does each program that ends,
/// whatever programs are run above others. Nothing is done here: the contract is the law.
pub fn less_is_left_behind_each_call()
    ensures begins { BeginsWithin }
    ensures itself { ItselfNeverRises }
    ensures reply { ReplyLowers }
    ensures run { RunLowers }
    ensures end { EndLowers }
{}
