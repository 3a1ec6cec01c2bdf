// Reads a task file from standard input and prints the answer.
#![tactic(auto)]

use answers::respond;
use std::io::Read;

// One byte more than a file may have: enough to see that it is too long.
const ENOUGH: u64 = 60_001;

fn main(rt: HostRuntime) -> anyhow::Result<()> {
    let heap = rt.alloc();
    let mut bytes = Vec::new(heap);
    rt.stdin().take(ENOUGH).read_to_end(&mut bytes)?;
    let text = respond(heap, bytes.as_slice())?;
    print!(rt; "{text}")?;
    Ok(())
}
