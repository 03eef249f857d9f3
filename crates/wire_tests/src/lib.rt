//! Tests of the message file on examples: what is written, what is read, and what is refused where.
#![tactic(auto)]

#[cfg(test)]
mod capacity;
#[cfg(test)]
mod layers;
#[cfg(test)]
mod read;
#[cfg(test)]
mod refused;
#[cfg(test)]
mod samples;
#[cfg(test)]
mod written;
