ghost use Rattle.std.specs.Prelude.{◌≡◌, ◌/◌, ◌%◌, length, slice_get};
ghost use Rattle.network_run.specs.Rules.{first_above, or_first, drawn, pick, behind};

use solo_base::ProcNo;

/// Who steps next, of the processes that may go on.
#[derive(Clone, Copy, Debug, PartialEq, Eq)]
pub enum Rule {
    /// The process with the least number.
    Least,
    /// The next one behind the process that stepped last, and behind the last the first again.
    Cyclic { last: ProcNo },
    /// One that a number draws, which is drawn from the number before: the schedule of that number.
    Numbered { number: u32 },
}

impl Rule {
    /// The process that steps next, of those that may go on, in order of their numbers. None: there is none.
    pub fn pick(&mut self, goers: &[ProcNo]) -> Option<ProcNo>
        ensures picks { result ≡ pick self.old goers.now }
        ensures goes_on { self.new ≡ behind self.old result }
    {
        let picked = self.picked(goers);
        *self = self.behind(picked);
        picked
    }

    // The process that steps next.
    fn picked(&self, goers: &[ProcNo]) -> Option<ProcNo>
        ensures { result ≡ pick self.now goers.now }
    {
        match self {
            Rule::Least => goers.first().copied(),
            Rule::Cyclic { last } => first_behind(*last, goers),
            Rule::Numbered { number } => at_drawn(draw(*number), goers),
        }
    }

    // The rule behind its pick.
    fn behind(self, picked: Option<ProcNo>) -> Rule
        ensures { result ≡ behind self picked }
    {
        match (self, picked) {
            (_, None) => self,
            (Rule::Least, Some(_)) => Rule::Least,
            (Rule::Cyclic { .. }, Some(p)) => Rule::Cyclic { last: p },
            (Rule::Numbered { number }, Some(_)) => Rule::Numbered {
                number: draw(number),
            },
        }
    }
}

// The number that a schedule draws next.
fn draw(number: u32) -> u32
    ensures { result ≡ drawn number }
{
    let drawn = (u64::from(number) * 1103515245 + 12345) % 2147483648;
    drawn as u32
}

// The first that may go on behind the one that stepped last, or the first of all.
fn first_behind(last: ProcNo, goers: &[ProcNo]) -> Option<ProcNo>
    ensures { result ≡ or_first (first_above last goers.now) goers.now }
{
    match above(last, goers) {
        Some(p) => Some(p),
        None => goers.first().copied(),
    }
}

// The one at the place that a number draws.
fn at_drawn(drawn: u32, goers: &[ProcNo]) -> Option<ProcNo>
    ensures { result ≡ slice_get goers.now ((drawn / 65536) % length goers.now) }
{
    if goers.is_empty() {
        return None;
    }
    goers.get(drawn as usize / 65536 % goers.len()).copied()
}

// The first above a number.
fn above(last: ProcNo, goers: &[ProcNo]) -> Option<ProcNo>
    ensures { result ≡ first_above last goers.now }
{
    match goers {
        [] => None,
        [p, later @ ..] => {
            if last < *p {
                Some(*p)
            } else {
                above(last, later)
            }
        }
    }
}
