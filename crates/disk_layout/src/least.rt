ghost use Rattle.std.specs.Prelude.{◌≡◌};
ghost use Rattle.disk_layout.specs.Judging.{noted_bad, earlier};

/// Notes the first number that breaks a rule.
pub fn note_bad(bad: &mut Option<u16>, n: u16, right: bool)
    ensures { bad.new ≡ noted_bad bad.old n right }
{
    if !right && bad.is_none() {
        *bad = Some(n);
    }
}

/// The first of both.
pub fn earlier(bad: Option<u16>, other: Option<u16>) -> Option<u16>
    ensures { result ≡ earlier bad other }
{
    match (bad, other) {
        (Some(bad), Some(other)) => Some(bad.min(other)),
        (Some(bad), None) => Some(bad),
        (None, other) => other,
    }
}
