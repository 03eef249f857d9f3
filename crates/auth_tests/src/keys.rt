use auth::MAX_NODES;
use siphash::Key;

// The key of the published tags.
pub(crate) const KEY: Key = [0, 1, 2, 3, 4, 5, 6, 7, 8, 9, 10, 11, 12, 13, 14, 15];

// A key for each node: node 1 has the published one, and the others differ from each other in their first byte.
pub(crate) fn keys() -> [Key; MAX_NODES] {
    let mut keys = [KEY; MAX_NODES];
    for (node, key) in keys.iter_mut().enumerate() {
        key[0] = (node as u8) ^ 1;
    }
    keys
}
