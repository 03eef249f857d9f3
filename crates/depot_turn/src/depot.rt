ghost use Rattle.std.specs.Prelude.{◌≡◌, IfOk, string_bytes};
ghost use Rattle.depot_turn.specs.Depot.{depot, response};

use crate::text::{outcomes_text, refusal_text};
use crate::turn::run_turn;
use auth::Roster;
use broadcast::{DirectBroadcast, Turn};
use std::alloc::{AllocError, Global};
use wire::Refusal;

/// Four nodes of which one may be faulty, and node 0 is.
pub fn depot_roster() -> Roster
    ensures { result ≡ depot }
{
    Roster::new(4, 1, &[0]).unwrap()
}

/// What the program prints for a message file: the outcomes of a turn that node 0 leads, or the file's refusal.
pub fn respond(heap: Global, file: &[u8]) -> Result<String, AllocError>
    ensures { IfOk result (λ s. string_bytes s ≡ response file.now) }
{
    let turn = Turn {
        roster: depot_roster(),
        number: 0,
        leader: 0,
        proposal: 0,
    };
    match run_turn(&mut DirectBroadcast, &turn, file) {
        Ok(outcomes) => outcomes_text(heap, &turn.roster, &outcomes),
        Err(fault) => refusal_text(heap, &Refusal::from(fault)),
    }
}
