ghost use Rattle.auth.specs.SigningLaws.{SigningLaws};

/// What a turn's signings come to.
pub fn signing_laws_hold()
    ensures { SigningLaws }
{}
