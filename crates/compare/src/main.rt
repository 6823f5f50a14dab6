// Plays two command lists, each on a unit of its own, and says whether the two units sound the same.
#![tactic(auto)]

use anyhow::bail;
use bank::Bank;
use banks::FlatBank;
use calls::Call;
use comparison::compare;
use desk::{MEMORY, MOST_BYTES, calls_of};
use model::Counts;
use pairing::Greedy;
use std::env;
use std::fs::File;
use std::io::Read;
use units::{Setup, Unit};

// The calls of the command list in a file. (`play` reads its list so, too: what the two share is three calls of the library,
// over different readers.)
fn calls_in_file(rt: &HostRuntime, path: &str) -> anyhow::Result<Vec<Call>> {
    let heap = rt.alloc();
    let mut bytes = Vec::new(heap);
    File::open(rt, path)?
        .take(MOST_BYTES)
        .read_to_end(&mut bytes)?;
    Ok(calls_of(heap, &bytes)?)
}

// The unit of the desk: a flat bank over the memory, Greedy, and seed 1. (`play` makes the same one. A function for both
// would stand in `desk`, which names no bank, and would have to repeat the bank's whole contract.)
fn setup(memory: &mut [u8]) -> Setup<FlatBank<'_>, Greedy> {
    Setup {
        bank: FlatBank::new(memory),
        pairing: Greedy,
        seed: 1,
    }
}

// Prints what a unit has done.
fn tell<B: Bank, P>(rt: &HostRuntime, name: &str, unit: &mut Unit<B, P>) -> anyhow::Result<()> {
    let calls = unit.answers.len();
    let Counts {
        frames,
        spans,
        labels,
    } = unit.pool.count();
    println!(rt; "{name}: {calls} calls, {frames} frames out, {spans} spans, {labels} labels")?;
    Ok(())
}

fn main(rt: HostRuntime) -> anyhow::Result<()> {
    let heap = rt.alloc();
    let mut arguments = env::args(&rt)?.skip(1);
    let (Some(first_path), Some(second_path)) = (arguments.next(), arguments.next()) else {
        bail!("usage: compare FIRST SECOND, two files with command lists");
    };
    let first_calls = calls_in_file(&rt, first_path.as_str())?;
    let second_calls = calls_in_file(&rt, second_path.as_str())?;
    let mut first_memory = vec![in heap; 0u8; MEMORY]?;
    let mut second_memory = vec![in heap; 0u8; MEMORY]?;
    let mut compared = compare(
        heap,
        setup(&mut first_memory),
        &first_calls,
        setup(&mut second_memory),
        &second_calls,
    )?;
    tell(&rt, "first", &mut compared.first)?;
    tell(&rt, "second", &mut compared.second)?;
    match compared.label {
        Some(label) => println!(rt; "label {label} reads differently")?,
        None => println!(rt; "all labels read alike")?,
    }
    match compared.frame {
        Some(frame) => println!(rt; "frame {frame} holds other bytes")?,
        None => println!(rt; "all frames hold equal bytes")?,
    }
    Ok(())
}
