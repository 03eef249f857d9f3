//! Reads a message file from standard input, runs one turn with it, and prints the outcomes or the file's refusal.
#![tactic(auto)]

use depot_turn::respond;
use std::io::Read;
use wire::MAX_FILE;

// One byte more than a file may have, so that a larger one is seen to be too large. A cast, since there is no `From<usize>` for u64.
const KEPT: u64 = MAX_FILE as u64 + 1;

fn main(rt: HostRuntime) -> anyhow::Result<()> {
    let mut file = Vec::new(rt.alloc());
    rt.stdin().take(KEPT).read_to_end(&mut file)?;
    rt.print(respond(rt.alloc(), file.as_slice())?)?;
    Ok(())
}
