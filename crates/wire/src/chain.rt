ghost use Rattle.std.specs.Prelude.{◌≡◌};
ghost use Rattle.wire.specs.Format.{chain};

use crate::message::{MAX_SIGNATURES, Message, Signature};

impl Message {
    /// The signatures that mean something.
    pub fn chain(&self) -> &[Signature]
        ensures { result.now ≡ chain self.now }
    {
        let count = usize::from(self.count).min(MAX_SIGNATURES);
        &self.signatures[..count]
    }
}
