// What is printed of questions, outcomes and refusals.
use crate::theory;
use engine::Stop;
use evaluator::{Evaluator, Outcome, Refusal};
use stores::Store;
use terms::limits::VALUE_ATOMS;
use terms::{Atom, Node};

fn name_of(names: &[&'static str], number: u16) -> &'static str {
    names.get(usize::from(number)).copied().unwrap_or("?")
}

pub(crate) fn question(rt: &HostRuntime, node: Node, path: &[Atom]) -> anyhow::Result<()> {
    print!(rt; "{}:<", name_of(theory::NODES, node.0))?;
    for (i, a) in path.iter().enumerate() {
        if i > 0 {
            print!(rt; " ")?;
        }
        print!(rt; "{}", name_of(theory::ATOMS, a.0))?;
    }
    print!(rt; ">")?;
    Ok(())
}

fn word(outcome: Outcome) -> &'static str {
    match outcome {
        Outcome::Idle => " : idle",
        Outcome::Unfinished => " : unfinished",
        Outcome::Value => " =",
        Outcome::Stopped(Stop::Undefined) => " : undefined",
        Outcome::Stopped(Stop::Path) => " : path",
        Outcome::Stopped(Stop::Circular) => " : circular",
        Outcome::Stopped(Stop::Depth) => " : depth",
        Outcome::Stopped(Stop::Length) => " : length",
    }
}

/// The outcome, the atoms of a value, and the steps.
pub(crate) fn outcome<S: Store>(rt: &HostRuntime, evaluator: &Evaluator<S>) -> anyhow::Result<()> {
    print!(rt; "{}", word(evaluator.outcome()))?;
    // Kept: a value is asked for place by place, which is the call that shows it to a device.
    for place in 0..VALUE_ATOMS {
        let Some(atom) = evaluator.atom(place) else {
            break;
        };
        print!(rt; " {}", name_of(theory::ATOMS, atom.0))?;
    }
    println!(rt; " [{}]", evaluator.steps())?;
    Ok(())
}

/// The outcome, how many atoms a value has, and the steps. Places past the longest value are asked too, for none.
pub(crate) fn count<S: Store>(rt: &HostRuntime, evaluator: &Evaluator<S>) -> anyhow::Result<()> {
    let atoms = (0..300)
        .filter(|place| evaluator.atom(*place).is_some())
        .count();
    println!(rt;
        "{} {atoms} [{}]",
        word(evaluator.outcome()),
        evaluator.steps()
    )?;
    Ok(())
}

pub(crate) fn refusal(
    rt: &HostRuntime,
    title: &str,
    res: Result<(), Refusal>,
) -> anyhow::Result<()> {
    match res {
        Ok(()) => println!(rt; "{title}: 0")?,
        Err(refusal) => println!(rt; "{title}: {}", refusal.number())?,
    }
    Ok(())
}

pub(crate) fn requests(rt: &HostRuntime, res: Result<u64, Refusal>) -> anyhow::Result<()> {
    match res {
        Ok(requests) => println!(rt; "work 4: the store is asked {requests} times")?,
        Err(refusal) => println!(rt; "work 4: {}", refusal.number())?,
    }
    Ok(())
}

pub(crate) fn added(rt: &HostRuntime, res: Result<(), stores::Refusal>) -> anyhow::Result<()> {
    if let Err(refusal) = res {
        println!(rt; "refused: {}", refusal.number())?;
    }
    Ok(())
}
