// A tree, judged by the static rules.

ghost use Rattle.std.specs.Prelude.{◌≡◌, ℕ, Err, Some, None, IfOk, OnOk};
ghost use Rattle.pascal_tree.specs.SeenProgram.{seen_program};
ghost use Rattle.pascal_tree.specs.DeclarationRules.{broken};

use crate::fault::CheckFault;
use crate::routines::judge_program;
use crate::scope::Scope;
use pascal_tree::{Checked, Tree};

/// The tree, where it breaks none of the static rules; else the first that it breaks, with the line
/// of the word that is named.
pub fn check(tree: Tree) -> Result<Checked, CheckFault>
    ensures unbroken { IfOk result (λ checked. broken (seen_program tree) ≡ None) }
    ensures ok { IfOk result (λ checked. checked ≡ tree) }
    ensures broken { (line rule : ℕ) → result ≡ Err (CheckFault.Semantic line rule)
        → broken (seen_program tree) ≡ Some (record { rule = rule; line = line }) }
{
    match judge(&tree) {
        Ok(()) => Ok(Checked::of(tree)),
        Err(fault) => Err(fault),
    }
}

// The nodes of a tree.
#[tactic(auto, unfolding(pascal_tree::specs::DeclarationRules::broken))]
fn judge(tree: &Tree) -> Result<(), CheckFault>
    ensures ok { OnOk result (broken (seen_program tree.now) ≡ None) }
    ensures broken { (line rule : ℕ) → result ≡ Err (CheckFault.Semantic line rule)
        → broken (seen_program tree.now) ≡ Some (record { rule = rule; line = line }) }
{
    let mut scope = Scope::new(*tree.program.routines.allocator());
    judge_program(&mut scope, &tree.program)
}
