ghost use Rattle.std.specs.Prelude.{◌≡◌, ℕ, ◌<◌, ◌≤◌, false, length, slice_index_or};

/// The most nodes that a roster has, and so the places of a table with one for each. Such tables are arrays: the library uses no heap.
pub const MAX_NODES: usize = 16;

// The methods are in `rosters`: their contracts name specs over this type, and the file of a type with ghost fields cannot, as that would be a circle.
/// The nodes of a cluster, numbered from 0, how many faulty ones a protocol is to withstand, and which are faulty.
/// There may be more faulty nodes than the bound. The other nodes are honest.
#[derive(Clone, Copy)]
pub struct Roster {
    pub(crate) nodes: u8,
    pub(crate) bound: u8,
    // an array, as MAX_NODES says: a flag for each place
    pub(crate) faulty: [bool; MAX_NODES],
    // 1 to 16 nodes, a bound below their number, a flag for each of sixteen places, and none set where no node is
    ghost inhabited: { 1 ≤ nodes },
    ghost placed: { nodes ≤ 16 },
    ghost bounded: { bound < nodes },
    ghost flagged: { length faulty ≡ 16 },
    ghost absent: { (i : ℕ) → nodes ≤ i → slice_index_or faulty i false ≡ false },
}

/// What no roster is made from.
#[derive(Clone, Copy, PartialEq, Eq, Debug)]
pub enum RosterFault {
    /// no node or more than 16, a bound that is not below their number, or a faulty node that is none of them
    OutOfBounds = 6,
}
