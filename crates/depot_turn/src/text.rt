ghost use Rattle.std.specs.Prelude.{◌≡◌, IfOk, string_bytes};
ghost use Rattle.depot_turn.specs.Texts.{state_name, node_line, outcomes_text, refusal_text};

use auth::{MAX_NODES, Roster};
use std::alloc::{AllocError, Global};
use wire::Refusal;

// Two words by one test: an enum of them with a Display would say no more.
fn state_name(roster: &Roster, node: u8) -> &'static str
    ensures { result.now ≡ state_name roster.now node }
{
    if roster.is_honest(node) {
        "honest"
    } else {
        "faulty"
    }
}

/// A heading, and then a line for each node. The contract speaks of the text where memory does not fail, and says so by `IfOk` in sight.
pub fn outcomes_text(
    heap: Global,
    roster: &Roster,
    outcomes: &[u64; MAX_NODES],
) -> Result<String, AllocError>
    ensures { IfOk result (λ s. string_bytes s ≡ outcomes_text roster.now outcomes.now) }
{
    let mut text = String::from_str(heap, "box,state,outcome\n")?;
    for (node, outcome) in (0..roster.nodes()).zip(outcomes) {
        let state = state_name(roster, node);
        writeln!(text, "{node},{state},{outcome}")?;
    }
    Ok(text)
}

/// The refusal, and the end of the line.
pub fn refusal_text(heap: Global, refusal: &Refusal) -> Result<String, AllocError>
    ensures { IfOk result (λ s. string_bytes s ≡ refusal_text refusal.now) }
{
    format!(in heap; "{refusal}\n")
}
