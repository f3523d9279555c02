//! Worked runs of the program, from a table on standard input: each is run by [`sm_top::run`] over a source and a sink in
//! memory, and a line is written for each one that comes out otherwise than the table says; the last line counts.
//!
//! The table is an array of [`Case`]s in JSON. A short input is read whole, in pieces of 7 bytes, and byte by byte.
#![tactic(auto)]

use case::Case;
use judging::{Before, judge};
use std::io::Read;

mod bytes;
mod case;
mod judging;
mod running;

fn main(rt: HostRuntime) -> anyhow::Result<()> {
    let alloc = rt.alloc();
    let mut table = Vec::new(alloc);
    rt.reader().read_to_end(&mut table)?;
    let cases: Vec<Case> = serde_json::from_slice(alloc, &table)?;
    let mut before = Before::new(alloc);
    let mut different = 0u64;
    for case in &cases {
        if let Some(found) = judge(alloc, case, &mut before)? {
            println!(rt; "{}: {found}", case.shows)?;
            different = different.saturating_add(1);
        }
    }
    println!(rt; "{} runs, {different} come out otherwise", cases.len())?;
    Ok(())
}
