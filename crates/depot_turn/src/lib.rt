//! What the program `depot` does: one turn from a message file, and what is said of it.
#![tactic(auto)]

mod depot;
mod text;
mod turn;

pub use depot::{depot_roster, respond};
pub use text::{outcomes_text, refusal_text};
pub use turn::run_turn;
