//! Plain writes, each with its sync: what a commit cannot be faster than, one or two of them for each.
use crate::latencies::Latencies;
use crate::serving::Took;
use anyhow::Result;
use bench_parts::files::{file_of, write_and_sync};
use bench_parts::host::Host;
use std::io;

const TEXT: [u8; 512] = [7; 512];

/// How many writes a round of this work has: `plain` one, `twice` two, as a force has them.
pub fn syncs_of(work: &str) -> Option<u64> {
    match work {
        "plain" => Some(1),
        "twice" => Some(2),
        _ => None,
    }
}

/// So many rounds.
pub fn measured(rt: &HostRuntime, syncs: u64, rounds: u64, folder: &str) -> Result<Took> {
    let host = Host::new(rt)?;
    let writes = rounds.saturating_mul(syncs);
    let mut file = file_of(
        &host,
        folder,
        "plain",
        Some(writes.saturating_mul(TEXT.len() as u64)),
    )?;
    let start = host.nanos();
    for number in 0..writes {
        write_and_sync(&mut file, number, &TEXT)?;
    }
    Ok(Took {
        done: rounds,
        refused: 0,
        latencies: Latencies::new(),
        nanos: host.nanos_since(start),
    })
}
