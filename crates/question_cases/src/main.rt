// Lines, and what each asks: the node and the atoms by their numbers, or nothing, or the fault; then how many names there are.
#![tactic(auto)]

mod cases;

use names::Names;
use path::Path;
use questions::{Asked, LineFault, read_question};

fn show_path(rt: &HostRuntime, path: &Path) -> anyhow::Result<()> {
    for a in path.as_slice() {
        print!(rt; " {}", a.0)?;
    }
    Ok(())
}

fn show(rt: &HostRuntime, question: Option<Asked>) -> anyhow::Result<()> {
    match question {
        None => {
            print!(rt; "nothing")?;
        }
        Some(asked) => {
            print!(rt; "{}:", asked.node.0)?;
            show_path(rt, &asked.path)?;
        }
    }
    Ok(())
}

fn show_fault(rt: &HostRuntime, fault: LineFault) -> anyhow::Result<()> {
    print!(rt; "{} at {}", fault.number(), fault.place())?;
    Ok(())
}

fn read(rt: &HostRuntime, line: &[u8], names: &mut Names) -> anyhow::Result<()> {
    match read_question(line, names) {
        Ok(question) => show(rt, question)?,
        Err(fault) => show_fault(rt, fault)?,
    }
    println!(rt; ", {} {}", names.node_count(), names.atom_count())?;
    Ok(())
}

fn read_each(rt: &HostRuntime, lines: &[&[u8]]) -> anyhow::Result<()> {
    let mut names = Names::new(rt.alloc())?;
    for line in lines {
        read(rt, line, &mut names)?;
    }
    Ok(())
}

// `L:<`, as many times `a `, and the line's last bytes.
fn read_long(rt: &HostRuntime, atoms: usize, last: &[u8]) -> anyhow::Result<()> {
    let mut names = Names::new(rt.alloc())?;
    let mut line = Vec::new(rt.alloc());
    line.extend_from_slice(b"L:<")?;
    for _ in 0..atoms {
        line.extend_from_slice(b"a ")?;
    }
    line.extend_from_slice(last)?;
    read(rt, line.as_slice(), &mut names)
}

fn main(rt: HostRuntime) -> anyhow::Result<()> {
    read_each(&rt, cases::QUESTIONS)?;
    read_each(&rt, cases::FAULTS)?;
    for (atoms, last) in cases::LONG {
        read_long(&rt, *atoms, last)?;
    }
    Ok(())
}
