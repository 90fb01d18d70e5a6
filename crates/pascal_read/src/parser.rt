ghost use Rattle.std.specs.Prelude.{◌≡◌, ℕ, Some, Err, IfOk};
ghost use Rattle.pascal_tree.specs.SeenProgram.{seen_program};
ghost use Rattle.pascal_tree.specs.SpellProgram.{spelled};
ghost use Rattle.pascal_tree.specs.Limits.{RoutinesFit, BodyFits, IsTree};
ghost use Rattle.pascal_read.specs.ErrorPlace.{SpellATree, EndAtTheEnd, ErrorPlace};
ghost use Rattle.pascal_read.specs.ParseWants.{report, program_wants};

use crate::ParseFault;
use crate::parse_program::program;
use crate::parse_reader::Reader;
use crate::parse_words::each_is_a_word;
use pascal_tree::declaration::Program;
use pascal_tree::{Token, Tree};
use std::alloc::Global;

/// Reads the tree that a program's tokens spell. The last token has to be the end.
///
/// `Syntax` comes only where no tree is spelled so. Its line is that of the first token such that
/// no tree's spelling begins with the tokens up to and including it.
pub fn parse(alloc: Global, tokens: Vec<Token>) -> Result<Tree, ParseFault>
    requires { EndAtTheEnd tokens.items }
    ensures tree { IfOk result (λ tree. tokens.items ≡ spelled (seen_program tree)) }
    ensures limits { IfOk result (λ tree. IsTree (seen_program tree)) }
    ensures no_tree { (line : ℕ) → result ≡ Err (ParseFault.Syntax line)
        → SpellATree tokens.items → ⊥ }
    ensures place { (line : ℕ) → result ≡ Err (ParseFault.Syntax line)
        → ErrorPlace tokens.items line }
{
    each_is_a_word(&tokens);
    let program = read_whole(alloc, tokens)?;
    Ok(Tree { program })
}

// Reads a program with its end token, behind which nothing may stand.
fn read_whole(alloc: Global, tokens: Vec<Token>) -> Result<Program, ParseFault>
    ensures words { IfOk result (λ x. tokens.items ≡ spelled (seen_program x)) }
    ensures routines { IfOk result (λ x. RoutinesFit (seen_program x).routines) }
    ensures body { IfOk result (λ x. BodyFits (seen_program x).body 64) }
    ensures fault { (line : ℕ) → result ≡ Err (ParseFault.Syntax line)
        → report tokens.items program_wants ≡ Some line }
{
    let mut reader = Reader::new(tokens);
    let program = program(&mut reader, alloc)?;
    if !reader.is_at_end() {
        return Err(ParseFault::Syntax {
            line: reader.line(),
        });
    }
    Ok(program)
}
