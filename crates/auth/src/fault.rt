ghost use Rattle.auth.specs.Signing.{sign_fault_number, signing_number};

use refusals::Numbered;

/// What an authenticator does not sign.
#[derive(Clone, Copy, PartialEq, Eq, Debug)]
pub enum SignFault {
    /// the node is above 15, or has signed two other values in this turn
    NotAllowed = 13,
}

impl Numbered for SignFault {
    ghost number = { sign_fault_number };

    ghost in_range = { signing_number };

    fn number(&self) -> u8 {
        *self as u8
    }
}
