ghost use Rattle.std.specs.Prelude.{◌≡◌, ◌≤◌, ℕ, List, [], ◌∷◌, ◌++◌, Err, IfOk};
ghost use Rattle.solo_devices.specs.Count.{Rose};
ghost use Rattle.solo_law.specs.Work.{Plan, Given as GivenOf};
ghost use Rattle.solo_procs.specs.Commands.{Kind, AtLine, given_of, kind_given, Comes, LeadsSo};

use solo_base::{Feed, Item, Line, LineList, Page};
use std::alloc::Global;

/// What a piece of work begins with.
#[derive(Drop)]
pub enum Given {
    /// A typed line, which is a command.
    Line(Item),
    /// A card file: its cards up to the first spoiled one, and whether there is one.
    Cards { cards: LineList, spoiled: bool },
    /// A typed line, or that there is none, for a program.
    Typed(Feed),
    /// A line was displayed, or a page was put.
    Nothing,
}

/// What a command needs next.
#[derive(Drop)]
pub enum Need {
    /// A card file.
    Cards,
    /// A typed line.
    Line,
    /// That this line is displayed.
    Display(Line),
    /// That this page is put, which isn't the command's last.
    Page(Page),
    /// It has ended: the last page, where it printed a line, and the lines that answer it.
    End {
        last: Option<Page>,
        answers: LineList,
    },
}

/// Why a piece of work was not done.
#[derive(Clone, Copy)]
pub enum WorkFault {
    /// The area of the files failed.
    Failed,
    /// Memory was refused.
    NoMemory,
}

/// The commands of Solo, as the job process knows them: one at a time is under way, and each piece of work
/// on it comes to what it needs next.
pub trait Commands {
    /// The files that they work on.
    type Files;

    /// They may be worked on.
    ghost sound: { Self.Files → Type 0 };

    /// How many faults they counted.
    ghost faults: { Self.Files → ℕ };

    /// What all work on these files comes to, as long as it begins there.
    ghost opens: { Self.Files → Plan → Type 0 };

    /// Of its command so many pages were put, and the next piece of work begins with one of this kind.
    ghost awaits: { Self → ℕ → Kind → Type 0 };

    /// What all work from now on comes to.
    ghost plans: { Self → Self.Files → Plan → Type 0 };

    /// From these opening files all work so far, which began so, led to these files and to where the
    /// commands stand.
    ghost follows: { Self → Self.Files → List GivenOf → Self.Files → Type 0 };

    /// From these opening files work that began so comes to these files: behind its last piece, or in the
    /// middle of that.
    ghost passes: { Self.Files → List GivenOf → Self.Files → Type 0 };

    /// No command is under way.
    fn begin(alloc: Global) -> Self
        ensures awaits { awaits result 0 AtLine }
        ensures plans { (files : Self.Files) (plan : Plan) → opens files plan → plans result files plan }
        ensures follows { (files : Self.Files) → follows result files [] files }
        ensures passes { (files : Self.Files) → passes files [] files };

    /// Works up to the next need.
    fn work(&mut self, given: Given, files: &mut Self::Files) -> Result<Need, WorkFault>
        requires sound { sound files.old }
        ensures comes { (pages : ℕ) → awaits self.old pages (kind_given (given_of given)) →
            IfOk result (λ need. Comes pages (given_of given) (awaits self.new)
            (plans self.old files.old) (plans self.new files.new) need) }
        // Where the files counted no fault they are some to which the work comes.
        ensures follows { (opening : Self.Files) (before : List GivenOf)
            → follows self.old opening before files.old
            → LeadsSo result (follows self.new opening (before ++ given_of given ∷ []) files.new)
            (passes opening (before ++ given_of given ∷ []) files.new) }
        ensures sound { IfOk result (λ need. sound files.new) }
        ensures failed { result ≡ Err WorkFault.Failed → Rose (faults files.old) (faults files.new) }
        ensures counts { faults files.old ≤ faults files.new };
}
