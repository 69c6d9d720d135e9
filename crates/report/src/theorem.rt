// Two files have one outcome. The function computes nothing: its contract is the theorem, so the check asks for the proof.
ghost use Rattle.report.specs.Means.{OneOutcome};

pub fn one_outcome()
    ensures { OneOutcome }
{}
