// The two accounts of an assignment file, its checks and what it is, agree.
ghost use Rattle.assignments.specs.Assignment.{ReadsExactly};

pub fn reads_exactly()
    ensures { ReadsExactly }
{}
