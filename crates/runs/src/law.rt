// The law over runs. The function computes nothing: its contract is the theorem, so the check asks for the proof.
ghost use Rattle.runs.specs.Law.{LawOverRuns};

use field::field::Field;

pub fn law_over_runs<F: Field>()
    ensures { LawOverRuns F.ops }
{}
