// The contract of the entry leaves it no choice.
ghost use Rattle.sapsheet_c.specs.Means.{OneOutcome};

pub fn one_outcome()
    ensures { OneOutcome }
{}
