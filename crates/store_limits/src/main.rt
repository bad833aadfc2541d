// Every keeper at its limits: the last sentence, atom and item that it takes, and the first that it does not.
#![tactic(auto)]

use addendum::Addendum;
use flat::FlatList;
use stores::{Keeper, Refusal, Store};
use terms::{Atom, Item, Node};
use tree::PrefixTree;

type Answer = Result<(), Refusal>;

// How many atoms the left path of a sentence has, and how many items its right side.
#[derive(Clone, Copy)]
struct Size {
    atoms: usize,
    items: usize,
}

fn of_atoms(atoms: usize) -> Size {
    Size { atoms, items: 0 }
}

fn of_items(items: usize) -> Size {
    Size { atoms: 0, items }
}

// Adds sentence i of those with so many atoms and items: 1,024 nodes have one each, then another, and so on.
fn put<K: Keeper>(keeper: &mut K, i: u16, size: Size) -> Answer {
    let left = [Atom(i / 1024); 40];
    let right = [Item::Atom(Atom(i / 1024)); 80];
    let atoms = size.atoms.min(40);
    let items = size.items.min(80);
    keeper.add(Node(i % 1024), &left[0..atoms], &right[0..items])
}

// Adds so many, and answers the last refusal.
fn put_all<K: Keeper>(keeper: &mut K, count: u16, size: Size) -> Answer {
    let mut all = Ok(());
    for i in 0..count {
        if let Err(refusal) = put(keeper, i, size) {
            all = Err(refusal);
        }
    }
    all
}

fn sentences<K: Keeper>(keeper: &mut K, most: u16) -> [Answer; 3] {
    keeper.clear();
    let before = most.saturating_sub(1);
    let a = put_all(keeper, before, of_atoms(1));
    let b = put(keeper, before, of_atoms(1));
    let c = put(keeper, most, of_atoms(1));
    [a, b, c]
}

// So many sentences of some size but the last, that one, two more of one atom or item, and one of none.
fn full<K: Keeper>(keeper: &mut K, most: u16, each: Size, last: Size, one: Size) -> [Answer; 5] {
    keeper.clear();
    let before = most.saturating_sub(1);
    let a = put_all(keeper, before, each);
    let b = put(keeper, before, last);
    let c = put(keeper, 1000, one);
    let d = put(keeper, 1001, one);
    let e = put(keeper, 1002, of_atoms(0));
    [a, b, c, d, e]
}

// Whether node 7 is found to have a left path of one atom, and that to have one item.
fn seven<K: Keeper>(keeper: &K) -> [bool; 3] {
    let path = [Atom(0), Atom(5)];
    let found = keeper.find(Node(7), &path) == Some(1);
    let first = keeper.item(Node(7), &path[0..1], 0).is_some();
    let second = keeper.item(Node(7), &path[0..1], 1).is_some();
    [found, first, second]
}

// 0, or the number of the refusal, of each answer. Kept in each of two programs: a crate for one loop that prints is no plainer.
fn line(rt: &HostRuntime, name: &str, answers: &[Answer]) -> anyhow::Result<()> {
    print!(rt; "{name}:")?;
    for answer in answers {
        match answer {
            Ok(()) => print!(rt; " 0")?,
            Err(refusal) => print!(rt; " {}", refusal.number())?,
        }
    }
    println!(rt; "")?;
    Ok(())
}

fn has(rt: &HostRuntime, name: &str, answers: [bool; 3]) -> anyhow::Result<()> {
    let [found, first, second] = answers;
    println!(rt; "{name}: {found} {first} {second}")?;
    Ok(())
}

// Full, emptied, and filled again.
fn again<K: Keeper>(rt: &HostRuntime, keeper: &mut K, most: u16) -> anyhow::Result<()> {
    let one_of_each = Size { atoms: 1, items: 1 };
    keeper.clear();
    let first = put_all(keeper, most, one_of_each);
    has(rt, "full", seven(keeper))?;
    keeper.clear();
    has(rt, "emptied", seven(keeper))?;
    let second = put_all(keeper, most, one_of_each);
    let one_more = put(keeper, most, one_of_each);
    has(rt, "full again", seven(keeper))?;
    line(rt, "full, full again, one more", &[first, second, one_more])
}

fn all<K: Keeper>(
    rt: &HostRuntime,
    keeper: &mut K,
    most: u16,
    most_atoms: u16,
    most_items: u16,
) -> anyhow::Result<()> {
    line(
        rt,
        "all sentences but one, the last, one more",
        &sentences(keeper, most),
    )?;
    line(
        rt,
        "32 atoms each, the last 31, then one, one more, none",
        &full(keeper, most_atoms, of_atoms(32), of_atoms(31), of_atoms(1)),
    )?;
    line(
        rt,
        "64 items each, the last 63, then one, one more, none",
        &full(keeper, most_items, of_items(64), of_items(63), of_items(1)),
    )?;
    again(rt, keeper, most)
}

fn main(rt: HostRuntime) -> anyhow::Result<()> {
    let heap = rt.alloc();
    line(&rt, "flat list", &[])?;
    let mut flat = FlatList::new(heap)?;
    all(&rt, &mut flat, 4096, 512, 512)?;
    line(&rt, "prefix tree", &[])?;
    let mut tree = PrefixTree::new(heap)?;
    all(&rt, &mut tree, 2048, 256, 512)?;
    line(&rt, "addendum", &[])?;
    let mut addendum = Addendum::new(heap)?;
    all(&rt, &mut addendum, 256, 32, 32)
}
