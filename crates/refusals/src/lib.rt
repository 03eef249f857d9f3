//! What all refusals have in common: a number.
#![tactic(auto)]

ghost use Rattle.std.specs.Prelude.{◌≡◌, ℕ};
ghost use Rattle.refusals.specs.Numbers.{InRange};

/// A reason for which something was refused. Its number is what is told of it outside the program.
pub trait Numbered {
    ghost number: { Self → ℕ };

    fn number(&self) -> u8
        ensures { result ≡ number self.now };

    // the numbers are 1 to 15
    ghost in_range: { (reason : Self) → InRange (number reason) };
}
