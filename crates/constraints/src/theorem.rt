// The two accounts of a constraint file, its checks and what it is, agree.
ghost use Rattle.constraints.specs.Circuit.{OpensExactly};

pub fn opens_exactly()
    ensures { OpensExactly }
{}
