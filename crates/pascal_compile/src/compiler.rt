// Programs, compiled from their cards.

ghost use Rattle.std.specs.Prelude.{◌≡◌, ℕ, List, None, IfOk, IfErr};
ghost use Rattle.solo_base.specs.declared.system_call.SysReply.{SysReply};
ghost use Rattle.solo_base.specs.LineList.{AreLines};
ghost use Rattle.stack_code.specs.Rules.{IsGood};
ghost use Rattle.stack_machine.specs.Run.{Runs};
ghost use Rattle.pascal_tree.specs.Program.{Program};
ghost use Rattle.pascal_tree.specs.Limits.{IsTree};
ghost use Rattle.pascal_tree.specs.SeenProgram.{seen_program};
ghost use Rattle.pascal_tree.specs.DeclarationRules.{broken};
ghost use Rattle.pascal_mean.specs.Meaning.{meaning};
ghost use Rattle.pascal_mean.specs.MoreReplies.{FitTheMeaning};
ghost use Rattle.pascal_reading.specs.Reading.{reading, tree};
ghost use Rattle.code_law.specs.Compiling.{compiling, compiled, by_reading, by_rule, IsCodeOf, IsCodeFor};
ghost use Rattle.pascal_compile.specs.Faults.{Explains};

use crate::compile_fault::CompileFault;
use crate::fault::EmitFault;
use crate::program::code_of;
use pascal_check::{CheckFault, check};
use pascal_read::{ParseFault, ScanFault, parse, scan};
use pascal_tree::{Checked, Tree};
use solo_base::LineList;
use stack_code::{Code, Verified, verify};
use std::alloc::Global;

/// The code of the program on these cards, which does what the program means: whatever the limit of
/// ticks and the replies, provided that each fits the call at which the program waits.
///
/// Every fault but `NoMemory` is what compiling the cards comes to.
pub fn compile(alloc: Global, cards: &LineList) -> Result<Verified, CompileFault>
    ensures code { IfOk result (λ verified. IsCodeFor cards.now verified) }
    ensures meaning { (p : Program) (limit : ℕ) (replies : List SysReply)
        → compiling cards.now ≡ compiled p
        → FitTheMeaning p limit replies
        → IfOk result (λ verified. Runs verified limit replies (meaning p limit replies)) }
    ensures fault { IfErr result (λ fault. Explains fault (compiling cards.now)) }
{
    match tree_of(alloc, cards) {
        Ok(tree) => compile_tree(tree),
        Err(fault) => Err(fault),
    }
}

/// The tree that the cards spell.
fn tree_of(alloc: Global, cards: &LineList) -> Result<Tree, CompileFault>
    ensures tree { IfOk result (λ found. reading cards.now ≡ tree (seen_program found)) }
    ensures limits { IfOk result (λ found. IsTree (seen_program found)) }
    ensures fault { IfErr result (λ fault. Explains fault (by_reading (reading cards.now))) }
{
    each_is_a_line(cards);
    let tokens = match scan(alloc, cards) {
        Ok(tokens) => tokens,
        Err(ScanFault::BadWord { line }) => return Err(CompileFault::BadWord { line }),
        Err(ScanFault::NoMemory) => return Err(CompileFault::NoMemory),
    };
    match parse(alloc, tokens) {
        Ok(tree) => Ok(tree),
        Err(ParseFault::Syntax { line }) => Err(CompileFault::Syntax { line }),
        Err(ParseFault::NoMemory) => Err(CompileFault::NoMemory),
    }
}

/// Cards are lines.
fn each_is_a_line(cards: &LineList)
    ensures { AreLines cards.now }
{
    for place in 0..cards.len() {
        let line = cards.get(place);
        // that it is one is known where it is read
        let _ = line.bytes();
    }
}

/// The code of a tree, verified.
fn compile_tree(tree: Tree) -> Result<Verified, CompileFault>
    requires { IsTree (seen_program tree) }
    ensures code { IfOk result (λ verified. IsCodeOf (seen_program tree) verified) }
    ensures fault { IfErr result
        (λ fault. Explains fault (by_rule (seen_program tree) (broken (seen_program tree)))) }
{
    let checked = match check(tree) {
        Ok(checked) => checked,
        Err(CheckFault::Semantic { line, rule }) => {
            return Err(CompileFault::Semantic { line, rule });
        }
        Err(CheckFault::NoMemory) => return Err(CompileFault::NoMemory),
    };
    match code_of(&checked) {
        Ok(code) => Ok(verified(code)),
        Err(EmitFault::CodeLimit) => Err(CompileFault::CodeLimit),
        Err(EmitFault::NoMemory) => Err(CompileFault::NoMemory),
    }
}

/// Good code, verified.
fn verified(code: Code) -> Verified
    requires { IsGood code }
    ensures { result ≡ code }
{
    match verify(code) {
        Ok(verified) => verified,
        Err(_) => unreachable!(),
    }
}
