// Lines of every kind, and every refusal of a line.
#![tactic(auto)]

mod theory;

use evaluator::Evaluator;
use flat::FlatList;
use lines::{LineRefusal, write_answer, write_refused, write_text_refused};
use names::Names;
use std::io::Write;
use stores::Store;

const PAGE_BYTES: usize = 40;

/// The page up to its new end; or the refusal, and the whole page.
fn tell(rt: &HostRuntime, page: &[u8], told: Result<usize, LineRefusal>) -> anyhow::Result<()> {
    let out = rt.stdout();
    match told {
        Ok(end) => out.write_all(&page[0..end.min(page.len())])?,
        Err(refusal) => {
            let number = refusal.number();
            print!(rt; "{number} ")?;
            out.write_all(page)?;
            println!(rt; "")?;
        }
    }
    Ok(())
}

fn answer<S: Store>(
    rt: &HostRuntime,
    evaluator: &Evaluator<S>,
    names: &Names,
    fill: usize,
) -> anyhow::Result<()> {
    let mut page = [b'.'; PAGE_BYTES];
    let told = write_answer(evaluator, names, &mut page, fill);
    tell(rt, &page, told)
}

fn answers(rt: &HostRuntime) -> anyhow::Result<()> {
    let mut names = Names::new(rt.alloc())?;
    theory::name_all(&mut names);
    let mut store = FlatList::new(rt.alloc())?;
    theory::add_all(&mut store);
    let mut evaluator = Evaluator::new(rt.alloc(), store)?;
    answer(rt, &evaluator, &names, 0)?;
    for (node, path, steps, fill) in theory::QUESTIONS {
        let _ = evaluator.begin(*node, path);
        let _ = evaluator.work(*steps);
        answer(rt, &evaluator, &names, *fill)?;
        let _ = evaluator.give_up();
    }
    Ok(())
}

fn refusals(rt: &HostRuntime) -> anyhow::Result<()> {
    let mut page = [b'.'; 20];
    let told = write_refused(4, 17, &mut page, 13);
    tell(rt, &page, told)?;
    let told = write_refused(4, 17, &mut page, 14);
    tell(rt, &page, told)?;
    let told = write_text_refused(b"theory", 11, 65_536, &mut page, 2);
    tell(rt, &page, told)?;
    let told = write_text_refused(b"theory", 11, 65_536, &mut page, 3);
    tell(rt, &page, told)
}

fn main(rt: HostRuntime) -> anyhow::Result<()> {
    answers(&rt)?;
    refusals(&rt)
}
