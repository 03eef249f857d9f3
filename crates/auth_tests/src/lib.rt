//! Tests of rosters and authenticators on examples, and of SipHash on its published tags.
#![tactic(auto)]

#[cfg(test)]
mod ideal;
#[cfg(test)]
mod keys;
#[cfg(test)]
mod mac;
#[cfg(test)]
mod rosters;
#[cfg(test)]
mod tags;
#[cfg(test)]
mod turns;
