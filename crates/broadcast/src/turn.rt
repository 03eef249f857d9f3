use auth::Roster;

/// One turn of a cluster: who takes part, the turn's number, its leader, and what the leader proposes.
#[derive(Clone, Copy)]
pub struct Turn {
    pub roster: Roster,
    pub number: u8,
    pub leader: u8,
    pub proposal: u64,
}
