use deck_format::number_within;
use network_run::Rule;

/// What the words of the command line ask for: the rule of the run, how it is shown, and the numbers of the
/// first and the last event that are shown.
#[derive(Clone, Copy)]
pub struct Asked {
    pub rule: Rule,
    pub form: Form,
    pub from: u64,
    pub to: u64,
}

/// How a run is shown.
#[derive(Clone, Copy)]
pub enum Form {
    /// A line for each event.
    Table,
    /// One picture.
    Picture,
}

/// What these words ask for, or `None` where they are no written form.
pub fn asked_by(words: &[String]) -> Option<Asked> {
    match words {
        [option, rest @ ..] if option.as_str() == "--least" => in_form(Rule::Least, rest),
        [option, rest @ ..] if option.as_str() == "--cyclic" => in_form(
            Rule::Cyclic { last: 5 },
            rest,
        ),
        [option, number, rest @ ..] if option.as_str() == "--schedule" => {
            let number = number_within(number.as_bytes(), DIGITS, 0, MOST_SCHEDULE)?;
            in_form(Rule::Numbered { number }, rest)
        }
        _ => None,
    }
}

/// How many digits a number has at most.
const DIGITS: usize = 10;

/// The greatest number of a schedule.
const MOST_SCHEDULE: u32 = 2_147_483_647;

/// A run by this rule, of which the words behind it say how it is shown.
fn in_form(rule: Rule, words: &[String]) -> Option<Asked> {
    match words {
        [picture, rest @ ..] if picture.as_str() == "--picture" => {
            shown(rule, Form::Picture, rest)
        }
        _ => shown(rule, Form::Table, words),
    }
}

/// A run by this rule in this form, of which the words behind them say what is shown.
fn shown(rule: Rule, form: Form, words: &[String]) -> Option<Asked> {
    match words {
        [] => Some(Asked {
            rule,
            form,
            from: 1,
            to: u64::MAX,
        }),
        [events, from, to] if events.as_str() == "--events" => Some(Asked {
            rule,
            form,
            from: u64::from(number_within(from.as_bytes(), DIGITS, 1, u32::MAX)?),
            to: u64::from(number_within(to.as_bytes(), DIGITS, 1, u32::MAX)?),
        }),
        _ => None,
    }
}
