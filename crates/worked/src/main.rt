// Evaluates the worked theory over each store, one granted step at a time, and prints what is shown; then the limits and the refusals.
#![tactic(auto)]

mod calls;
mod limits;
mod print;
mod theory;

use addendum::Addendum;
use engine::Machine;
use evaluator::{Call, Evaluator, Outcome, evaluate};
use filling::fill;
use flat::FlatList;
use pile::Pile;
use stores::{Keeper, Store};
use terms::Node;
use terms::limits::STEPS;
use tree::PrefixTree;

/// Asks each question of the theory, and grants one step after the other.
fn ask_all<S: Store + Drop>(rt: &HostRuntime, title: &str, store: S) -> anyhow::Result<()> {
    println!(rt; "{title}")?;
    let mut evaluator = Evaluator::new(rt.alloc(), store)?;
    for question in theory::QUESTIONS {
        let _ = evaluator.begin(question.node, question.path);
        print::question(rt, question.node, question.path)?;
        print!(rt; " : unfinished")?;
        // A bound, so that the loop ends; no question here takes as many steps.
        for _ in 0..1000 {
            let Outcome::Unfinished = evaluator.outcome() else {
                break;
            };
            print!(rt; " [{}]", evaluator.steps())?;
            let _ = evaluator.work(1);
        }
        print::outcome(rt, &evaluator)?;
    }
    Ok(())
}

/// What a question comes to with all steps granted at once.
fn ask_at_once<S: Store + Drop>(
    rt: &HostRuntime,
    title: &str,
    store: S,
    node: Node,
) -> anyhow::Result<()> {
    let machine = Machine::new(rt.alloc())?;
    let evaluator = evaluate(machine, store, &[Call::Begin(node, &[]), Call::Work(STEPS)]);
    print!(rt; "{title}")?;
    print::count(rt, &evaluator)?;
    Ok(())
}

/// Which calls are refused, by number, and 0 where none is.
fn call_all<S: Store + Drop>(rt: &HostRuntime, store: S) -> anyhow::Result<()> {
    let mut evaluator = Evaluator::new(rt.alloc(), store)?;
    for c in calls::CALLS {
        print::refusal(rt, c.title, evaluator.call(c.call))?;
    }
    print::requests(rt, evaluator.work_counting(4))
}

/// The theory, over each store.
fn worked(rt: &HostRuntime, list: &mut FlatList) -> anyhow::Result<()> {
    let mut prefixes = PrefixTree::new(rt.alloc())?;
    let mut addendum = Addendum::new(rt.alloc())?;
    print::added(rt, fill(list, theory::THEORY))?;
    print::added(rt, fill(&mut prefixes, theory::THEORY))?;
    print::added(rt, fill(&mut addendum, theory::CHANGE))?;
    ask_all(rt, "flat list", &*list)?;
    ask_all(rt, "prefix tree", &prefixes)?;
    ask_all(
        rt,
        "pile",
        Pile {
            addendum,
            below: &*list,
        },
    )?;
    call_all(rt, &*list)
}

/// The limits of open sentences and of a value.
fn limited(rt: &HostRuntime, list: &mut FlatList) -> anyhow::Result<()> {
    list.clear();
    print::added(rt, limits::add_chain(list))?;
    print::added(rt, limits::add_doubles(list))?;
    ask_at_once(rt, "96 nodes", &*list, Node(1))?;
    ask_at_once(rt, "97 nodes", &*list, Node(0))?;
    ask_at_once(rt, "256 atoms", &*list, Node(200))?;
    ask_at_once(rt, "257 atoms", &*list, Node(199))
}

fn all(rt: &HostRuntime) -> anyhow::Result<()> {
    let mut list = FlatList::new(rt.alloc())?;
    worked(rt, &mut list)?;
    limited(rt, &mut list)
}

fn main(rt: HostRuntime) -> anyhow::Result<()> {
    all(&rt)
}
