ghost use Rattle.std.specs.Prelude.{◌≡◌};
ghost use Rattle.real_time.specs.Starts.{times};
ghost use Rattle.real_time.specs.Rows.{two_tasks, two_tasks_lines, refusals, refusals_lines};

/// Two scripts have these lines. Nothing is done here: the contract is the law.
pub fn worked_rows()
    ensures tasks { times two_tasks ≡ two_tasks_lines }
    ensures refused { times refusals ≡ refusals_lines }
{}
