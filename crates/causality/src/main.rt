//! Reads a dump on standard input, and prints its account.
#![tactic(auto)]

use account::account;
use std::io::Read;
use trace::Dump;

fn main(rt: HostRuntime) -> anyhow::Result<()> {
    run(&rt)
}

fn run(rt: &HostRuntime) -> anyhow::Result<()> {
    let heap = rt.alloc();
    let mut dump = Vec::new(heap);
    rt.stdin().take(Dump::MOST_BYTES).read_to_end(&mut dump)?;
    rt.print(account(heap, dump.as_slice())?)?;
    Ok(())
}
