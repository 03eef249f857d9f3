ghost use Rattle.std.specs.Prelude.{◌≡◌};
ghost use Rattle.auth.specs.Rosters.{honest, faulty_node, roster_answer, roster_from, fault_number, roster_number};

use crate::roster::{MAX_NODES, Roster, RosterFault};
use refusals::Numbered;

impl Roster {
    /// A roster of which the listed nodes are faulty, in any order and as often as they may be listed.
    #[tactic(auto, unfolding(crate::specs::Tables::table))]
    pub fn new(nodes: u8, bound: u8, faulty: &[u8]) -> Result<Roster, RosterFault>
        ensures answer { roster_answer result ≡ roster_from nodes bound faulty.now }
    {
        if usize::from(nodes) > MAX_NODES || bound >= nodes {
            return Err(RosterFault::OutOfBounds);
        }
        // One walk over the list, which may be long.
        let mut flags = [false; MAX_NODES];
        for &node in faulty {
            if node >= nodes {
                return Err(RosterFault::OutOfBounds);
            }
            flags[usize::from(node)] = true;
        }
        Ok(Roster {
            nodes,
            bound,
            faulty: flags,
        })
    }

    /// How many nodes there are.
    pub fn nodes(&self) -> u8
        ensures { result ≡ self.now.nodes }
    {
        self.nodes
    }

    /// How many faulty nodes a protocol is to withstand.
    pub fn bound(&self) -> u8
        ensures { result ≡ self.now.bound }
    {
        self.bound
    }

    /// A number that is no node is neither faulty nor honest.
    pub fn is_faulty(&self, node: u8) -> bool
        ensures { result ≡ faulty_node self.now node }
    {
        node < self.nodes && self.faulty[usize::from(node)]
    }

    pub fn is_honest(&self, node: u8) -> bool
        ensures { result ≡ honest self.now node }
    {
        node < self.nodes && !self.is_faulty(node)
    }
}

impl Numbered for RosterFault {
    ghost number = { fault_number };

    ghost in_range = { roster_number };

    fn number(&self) -> u8 {
        *self as u8
    }
}
