//! Who takes part, and who has signed what: rosters and authenticators.
#![tactic(auto)]

mod authenticator;
mod fault;
mod ideal;
mod laws;
mod mac;
mod recording;
mod roster;
mod rosters;
mod scheme;
mod signing;
mod turn_record;

pub use authenticator::Authenticator;
pub use fault::SignFault;
pub use ideal::IdealAuthenticator;
pub use laws::signing_laws_hold;
pub use mac::MacAuthenticator;
pub use refusals::Numbered;
pub use roster::{MAX_NODES, Roster, RosterFault};
