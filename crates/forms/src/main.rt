// forms: reads a theory and its addendum from the current folder.
#![tactic(auto)]

mod texts;

use faults::TEXT_BYTES;
use std::fs;
use std::io::{ErrorKind, Read};
use texts::{TextFault, tally_text};
use words::Tally;

// One byte more than a text may have, so that a longer one shows without being read whole.
const READ_BYTES: usize = TEXT_BYTES + 1;

// A missing file is an empty text.
fn read_text(rt: &HostRuntime, path: &str) -> anyhow::Result<Vec<u8>> {
    let mut text = Vec::with_capacity(rt.alloc(), READ_BYTES)?;
    match fs::open(rt, path) {
        Ok(file) => {
            file.take(READ_BYTES as u64).read_to_end(&mut text)?;
        }
        Err(e) => {
            if e.kind() != ErrorKind::NotFound {
                return Err(e.into());
            }
        }
    }
    Ok(text)
}

fn print_text(rt: &HostRuntime, name: &str, told: Result<Tally, TextFault>) -> anyhow::Result<()> {
    match told {
        Ok(tally) => {
            let words = tally.words;
            let nodes = tally.nodes;
            let atoms = tally.atoms;
            println!(rt; "{name} = {words} words, {nodes} node names, {atoms} atom names")?;
        }
        Err(fault) => {
            let number = fault.number();
            let place = fault.place();
            println!(rt; "{name} : {number} {place}")?;
        }
    }
    Ok(())
}

fn run(rt: &HostRuntime) -> anyhow::Result<()> {
    let theory = read_text(rt, "theory.dtr")?;
    print_text(rt, "theory", tally_text(&theory))?;
    let addendum = read_text(rt, "addendum.dtr")?;
    print_text(rt, "addendum", tally_text(&addendum))
}

fn main(rt: HostRuntime) -> anyhow::Result<()> {
    run(&rt)
}
