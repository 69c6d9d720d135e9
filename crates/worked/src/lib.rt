// Sheets and sums worked out to their numbers. The function computes nothing: its contract is the theorem, so the check asks for the proof.
#![tactic(auto)]

ghost use Rattle.worked.specs.Worked.{WorkedSheets};

pub fn worked_sheets()
    ensures { WorkedSheets }
{}
