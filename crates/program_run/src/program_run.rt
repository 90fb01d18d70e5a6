ghost use Rattle.std.specs.Prelude.{◌≡◌, ℕ, List, IsTrue, IfOk};
ghost use Rattle.disk_files.specs.Answers.{FaultsOnly, stays_sound};
ghost use Rattle.file_commands.specs.Faults.{of_command};
ghost use Rattle.prog_stack.specs.Callers.{TopBegins};
ghost use Rattle.program_run.specs.Beginning.{BeginsSo};
ghost use Rattle.program_run.specs.Sight.{at_beginning, IsUnderWay};
ghost use Rattle.program_run.specs.Work.{Begins};

use crate::hands::Hands;
use disk_files::FileArea;
use disk_system::{LoadFault, Loaded, load_job};
use file_commands::CommandFault;
use prog_stack::ProgStack;
use program_lines::{bad_code_line, no_file_line, not_code_line};
use solo_base::{ArgList, Ident, Line, NoMemory};
use solo_devices::Area;
use stack_code::Verified;
use std::alloc::Global;

/// The ticks that the programs of a command may take together.
const TICK_LIMIT: u32 = 1_000_000;

/// A program of a command that is under way: its name, the programs on the stack, and what they share but
/// for the files.
#[derive(Drop)]
pub struct ProgramRun {
    pub(crate) name: Ident,
    pub(crate) programs: ProgStack<5>,
    pub(crate) hand: Hands,
}

/// What a program command begins with.
#[derive(Drop)]
pub enum Begun {
    /// The program of the file.
    Runs(ProgramRun),
    /// The file has no good code, and this line alone answers.
    Answer(Line),
}

impl ProgramRun {
    /// Loads the program of a file, and begins it with these arguments.
    pub fn begin<A: Area>(
        alloc: Global,
        name: Ident,
        args: ArgList,
        files: &mut FileArea<A>,
    ) -> Result<Begun, CommandFault>
        requires { IsTrue files.old.sound }
        ensures begun { Begins name args (A.pages files.old.area) result }
        ensures left { A.pages files.new.area ≡ A.pages files.old.area }
        ensures sound { files.new.sound ≡ stays_sound (of_command result) }
        ensures cause { FaultsOnly (A.faults files.old.area) (A.faults files.new.area) (of_command result) }
    {
        match load_job(alloc, &name, files) {
            Ok(loaded) => begin_loaded(alloc, name, args, loaded),
            Err(LoadFault::DiskFault) => Err(CommandFault::DiskFault),
            Err(LoadFault::NoMemory) => Err(CommandFault::NoMemory),
        }
    }

    // A program of this code.
    fn of_code(
        alloc: Global,
        name: Ident,
        args: ArgList,
        code: Verified,
    ) -> Result<ProgramRun, NoMemory>
        ensures begun { IfOk result (λ program. program ≡ at_beginning name args code) }
        ensures under_way { IfOk result (λ program. IsUnderWay program) }
        ensures well { IfOk result (λ program. TopBegins program.programs) }
    {
        let mut programs = ProgStack::new(alloc);
        match programs.push(code, args, TICK_LIMIT) {
            Ok(()) => Ok(ProgramRun {
                name,
                programs,
                hand: Hands::new(alloc),
            }),
            Err(refused) => Err(refused),
        }
    }
}

// The program that was loaded, or why there is none.
fn begin_loaded(
    alloc: Global,
    name: Ident,
    args: ArgList,
    loaded: Loaded,
) -> Result<Begun, CommandFault>
    ensures { BeginsSo name args loaded result }
{
    match loaded {
        Loaded::Code(code) => match ProgramRun::of_code(alloc, name, args, code) {
            Ok(program) => Ok(Begun::Runs(program)),
            Err(_) => Err(CommandFault::NoMemory),
        },
        Loaded::NoFile => Ok(Begun::Answer(no_file_line(&name))),
        Loaded::NotCode => Ok(Begun::Answer(not_code_line(&name))),
        Loaded::BadCode { at } => Ok(Begun::Answer(bad_code_line(&name, at))),
    }
}
