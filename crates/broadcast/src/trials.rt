ghost use Rattle.broadcast.specs.Trials.{Trials};

/// The outcomes of small broadcasts, by their definitions.
pub fn trials_hold()
    ensures { Trials }
{}
