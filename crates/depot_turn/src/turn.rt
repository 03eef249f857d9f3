ghost use Rattle.std.specs.Prelude.{◌≡◌};
ghost use Rattle.broadcast.specs.Instances.{given};
ghost use Rattle.wire.specs.Reading.{reading};
ghost use Rattle.depot_turn.specs.Turns.{turn_answer, turn_from, TurnLeaves};

use auth::MAX_NODES;
use broadcast::{Broadcast, Turn};
use wire::{FileFault, MAX_MESSAGES, Message, read_messages};

/// Reads the messages of a file and broadcasts the turn's proposal among them; where the file is refused, nothing is broadcast.
pub fn run_turn<B: Broadcast>(
    broadcast: &mut B,
    turn: &Turn,
    file: &[u8],
) -> Result<[u64; MAX_NODES], FileFault>
    ensures answer { turn_answer result ≡ turn_from (λ messages. B.Broadcast.outcomes broadcast.old (given turn.now messages)) (reading file.now 128) }
    ensures after { TurnLeaves (λ messages. B.Broadcast.leaves broadcast.old (given turn.now messages) broadcast.new) (broadcast.new ≡ broadcast.old) (reading file.now 128) }
{
    let mut table = [Message::default(); MAX_MESSAGES];
    let count = read_messages(file, &mut table)?;
    Ok(broadcast.broadcast(turn, &table[..count]))
}
