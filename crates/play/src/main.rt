// Plays the command list on standard input and prints its listing.
#![tactic(auto)]

use banks::FlatBank;
use desk::{MEMORY, MOST_BYTES, play_on, transcript};
use pairing::Greedy;
use std::io::Read;
use units::Setup;

fn main(rt: HostRuntime) -> anyhow::Result<()> {
    let heap = rt.alloc();
    let mut bytes = Vec::new(heap);
    rt.stdin().take(MOST_BYTES).read_to_end(&mut bytes)?;
    let mut memory = vec![in heap; 0u8; MEMORY]?;
    let setup = Setup {
        bank: FlatBank::new(&mut memory),
        pairing: Greedy,
        seed: 1,
    };
    let played = play_on(heap, setup, &bytes)?;
    let listing = transcript(heap, &played.lines)?;
    rt.print(listing.as_str())?;
    Ok(())
}
