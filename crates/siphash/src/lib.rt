//! SipHash-2-4: a 64-bit tag of a message under a 16-byte key.
#![tactic(auto)]

mod example;
mod hash;
mod state;

pub use example::published_example_holds;
pub use hash::siphash;
pub use state::Key;
