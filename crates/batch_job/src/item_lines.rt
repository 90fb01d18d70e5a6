ghost use Rattle.std.specs.Prelude.{◌≡◌, ◌+◌, ◌≤◌, ◌++◌, ◌∷◌, List, ℕ, [], None, option_to_list, length};
ghost use Rattle.batch_job.specs.Places.{StillGives, Holds, lines_left_of, no_lines};

use program_lines::ProgramLines;
use solo_base::Line;

/// The lines that one item gives: those that end the part before it, its own, and one behind it.
#[derive(Debug, Drop)]
pub struct ItemLines {
    pub ending: ProgramLines,
    pub own: Option<Line>,
    pub note: Option<Line>,
}

impl ItemLines {
    /// No lines.
    pub fn none() -> ItemLines
        ensures { result ≡ no_lines }
    {
        ItemLines {
            ending: ProgramLines::Over,
            own: None,
            note: None,
        }
    }

    /// Makes them none.
    // What is not there is not written: a line is copied whole where none is put in its place.
    pub fn clear(&mut self)
        ensures { self.new ≡ no_lines }
    {
        if !matches!(self.ending, ProgramLines::Over) {
            self.ending = ProgramLines::Over;
        }
        clear_line(&mut self.own);
        clear_line(&mut self.note);
    }

    /// Makes them this line alone.
    pub fn hold(&mut self, line: &Line)
        ensures { Holds self.new (line.now ∷ []) }
    {
        self.clear();
        self.own = Some(line.copy());
    }

    /// The lines of a part behind which no more comes.
    pub fn ending_with(ending: ProgramLines) -> ItemLines
        ensures { (rest : List (List ℕ)) → StillGives ending rest → Holds result rest }
    {
        ItemLines {
            ending,
            own: None,
            note: None,
        }
    }

    /// Takes the next of them.
    pub fn next(&mut self) -> Option<Line>
        ensures lines { (all : List (List ℕ)) → Holds self.old all → (rest : List (List ℕ)) ×
            (all ≡ option_to_list result ++ rest) × Holds self.new rest }
        ensures none { result ≡ None → (all : List (List ℕ)) → Holds self.new all → all ≡ [] }
        ensures left { lines_left_of self.new + length (option_to_list result) ≤ lines_left_of self.old }
    {
        if let Some(line) = self.ending.next() {
            return Some(line);
        }
        if self.own.is_some() {
            return self.own.take();
        }
        if self.note.is_some() {
            return self.note.take();
        }
        None
    }
}

/// Makes it no line.
fn clear_line(line: &mut Option<Line>)
    ensures { line.new ≡ None }
{
    if line.is_some() {
        *line = None;
    }
}
