//! A leader's proposal, broadcast to the nodes of a roster of which some are faulty.
#![tactic(auto)]

mod broadcast;
mod delivery;
mod direct;
mod trials;
mod turn;

pub use broadcast::Broadcast;
pub use delivery::is_delivered;
pub use direct::DirectBroadcast;
pub use trials::trials_hold;
pub use turn::Turn;
