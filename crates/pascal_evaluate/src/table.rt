// What the declarations of a program say: the program itself and its routines in order.

ghost use Rattle.std.specs.Prelude.{◌≡◌, IfOk, map, drop};
ghost use Rattle.pascal_tree.specs.SeenProgram.{seen_block, seen_routine, seen_program};
ghost use Rattle.pascal_mean.specs.Declarations.{global_items, declared_headings, declared_routine, signature_of, block_of, program_itself, all_declared};
ghost use Rattle.pascal_evaluate.specs.SeenNames.{seen_items, seen_declared, seen_scope};

use crate::declare::{declare_constants, declare_parameters, declare_variables};
use crate::heading::{declare_headings, signature_of};
use crate::means::{Item, Owner, Signature};
use crate::scope::Scope;
use pascal_tree::declaration::{Block, Program, Routine};
use pascal_tree::statement::Body;
use solo_base::NoMemory;
use std::alloc::Global;

/// A routine as its declarations leave it: its parameters and result, the names that are declared
/// in it and before it, and its statements. The program itself is one without parameters.
#[derive(Drop)]
pub struct Declared<'a> {
    pub signature: Signature,
    pub own: Vec<Item>,
    pub known: &'a [Item],
    pub body: &'a Body,
}

/// The names of a program: its constants and variables, and its routines.
pub fn names_of(alloc: Global, program: &Program) -> Result<Vec<Item>, NoMemory>
    ensures { let p = seen_program program.now in
        IfOk result (λ items. seen_items items.items ≡ declared_headings 1 p.routines (global_items p)) }
{
    let mut items = Vec::new(alloc);
    declare_constants(&mut items, &[], &program.consts)?;
    declare_variables(&mut items, &[], Owner::OfProgram, &program.vars)?;
    declare_headings(&mut items, &program.routines)?;
    Ok(items)
}

/// The program itself and behind it its routines, where these are the names of the program.
pub fn all_declared<'a>(
    alloc: Global,
    items: &'a [Item],
    program: &'a Program,
) -> Result<Vec<Declared<'a>>, NoMemory>
    requires { let p = seen_program program.now in
        seen_items items.now ≡ declared_headings 1 p.routines (global_items p) }
    ensures { IfOk result (λ all. map seen_declared all.items ≡ all_declared (seen_program program.now)) }
{
    let mut all = Vec::new(alloc);
    all.push(program_itself(alloc, items, program))?;
    let count = program.routines.len();
    for place in 0..count {
        let before = behind(items, count - place);
        let known = behind(items, count - place - 1);
        all.push(declared_routine(alloc, before, known, &program.routines[place])?)?;
    }
    Ok(all)
}

// The names behind the first ones.
fn behind(items: &[Item], count: usize) -> &[Item]
    ensures { result.now ≡ drop count items.now }
{
    if count < items.len() {
        &items[count..]
    } else {
        &[]
    }
}

fn program_itself<'a>(alloc: Global, items: &'a [Item], program: &'a Program) -> Declared<'a>
    requires { let p = seen_program program.now in
        seen_items items.now ≡ declared_headings 1 p.routines (global_items p) }
    ensures { seen_declared result ≡ program_itself (seen_program program.now) }
{
    Declared {
        signature: Signature {
            parameters: Vec::new(alloc),
            answer: None,
        },
        own: Vec::new(alloc),
        known: items,
        body: &program.body,
    }
}

// A routine, where these names stand before its heading, and these up to it.
fn declared_routine<'a>(
    alloc: Global,
    before: &[Item],
    known: &'a [Item],
    routine: &'a Routine,
) -> Result<Declared<'a>, NoMemory>
    ensures { IfOk result (λ declared. seen_declared declared
        ≡ declared_routine (seen_items known.now)
        (signature_of (seen_items before.now) (seen_routine routine.now))
        (block_of (seen_routine routine.now))) }
{
    let signature = signature_of(alloc, before, routine)?;
    let block = block_of(routine);
    let mut own = Vec::new(alloc);
    declare_parameters(&mut own, &signature.parameters)?;
    declare_constants(&mut own, known, &block.consts)?;
    declare_variables(&mut own, known, Owner::OfRoutine, &block.vars)?;
    Ok(Declared {
        signature,
        own,
        known,
        body: &block.body,
    })
}

fn block_of(routine: &Routine) -> &Block
    ensures { seen_block result.now ≡ block_of (seen_routine routine.now) }
{
    match routine {
        Routine::Procedure { block, .. } | Routine::Function { block, .. } => block,
    }
}

impl Declared<'_> {
    /// What names mean in its statements.
    pub fn scope(&self) -> Scope<'_>
        ensures { seen_scope result ≡ (seen_declared self.now).scope }
    {
        Scope {
            own: &self.own,
            known: self.known,
        }
    }
}
