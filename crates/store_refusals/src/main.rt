// What every keeper refuses, and which refusal comes first.
#![tactic(auto)]

use addendum::Addendum;
use flat::FlatList;
use stores::{Keeper, Refusal, Store};
use terms::{Atom, Item, Node, Quoting};
use tree::PrefixTree;

type Answer = Result<(), Refusal>;

// So many atoms and items.
fn of_lengths<K: Keeper>(keeper: &mut K, node: u16, atoms: usize, items: usize) -> Answer {
    let left = [Atom(1); 40];
    let right = [Item::Atom(Atom(1)); 80];
    let atoms = atoms.min(40);
    let items = items.min(80);
    keeper.add(Node(node), &left[0..atoms], &right[0..items])
}

// So many openings, then so many closes.
fn of_paths<K: Keeper>(
    keeper: &mut K,
    node: u16,
    atoms: usize,
    opens: usize,
    closes: usize,
) -> Answer {
    let o = Item::Open(Quoting::Plain, None);
    let c = Item::Close;
    let left = [Atom(1); 40];
    let right = [o, o, o, o, o, c, c, c, c, c];
    let atoms = atoms.min(40);
    let from = 5 - opens.min(5);
    let to = 5 + closes.min(5);
    keeper.add(Node(node), &left[0..atoms], &right[from..to])
}

fn of_item<K: Keeper>(keeper: &mut K, node: u16, atom: u16, item: Item) -> Answer {
    keeper.add(Node(node), &[Atom(atom)], &[item])
}

// A path with a node in front.
fn of_path<K: Keeper>(keeper: &mut K, node: u16, front: u16) -> Answer {
    keeper.add(
        Node(node),
        &[],
        &[Item::Open(Quoting::Plain, Some(Node(front))), Item::Close],
    )
}

fn lengths<K: Keeper>(keeper: &mut K) -> [Answer; 5] {
    keeper.clear();
    let a = of_lengths(keeper, 0, 32, 0);
    let b = of_lengths(keeper, 1, 33, 0);
    let c = of_lengths(keeper, 2, 0, 64);
    let d = of_lengths(keeper, 3, 0, 65);
    let e = of_lengths(keeper, 4, 33, 65);
    [a, b, c, d, e]
}

fn nested<K: Keeper>(keeper: &mut K) -> [Answer; 5] {
    keeper.clear();
    let a = of_paths(keeper, 0, 0, 4, 4);
    let b = of_paths(keeper, 1, 0, 5, 5);
    let c = of_paths(keeper, 1, 33, 5, 5);
    let d = of_paths(keeper, 1, 33, 5, 4);
    let e = of_paths(keeper, 1, 0, 0, 1);
    [a, b, c, d, e]
}

fn ranges<K: Keeper>(keeper: &mut K) -> [Answer; 6] {
    keeper.clear();
    let atom = Item::Atom(Atom(4095));
    let a = of_item(keeper, 1023, 4095, atom);
    let b = of_item(keeper, 1024, 4095, atom);
    let c = of_item(keeper, 0, 4096, atom);
    let d = of_item(keeper, 0, 0, Item::Atom(Atom(4096)));
    let e = of_item(keeper, 0, 0, Item::Node(Quoting::Quoted, Node(1024)));
    let f = of_path(keeper, 0, 1024);
    [a, b, c, d, e, f]
}

fn pairs<K: Keeper>(keeper: &mut K) -> [Answer; 4] {
    keeper.clear();
    let item = Item::Node(Quoting::Plain, Node(1023));
    let a = of_item(keeper, 5, 6, item);
    let b = of_item(keeper, 5, 6, item);
    let c = of_item(keeper, 5, 6, Item::Atom(Atom(0)));
    let d = of_path(keeper, 5, 1023);
    [a, b, c, d]
}

// 0, or the number of the refusal, of each answer. Kept in each of two programs: a crate for one loop that prints is no plainer.
fn line(rt: &HostRuntime, name: &str, answers: &[Answer]) -> anyhow::Result<()> {
    print!(rt; "{name}:")?;
    for answer in answers {
        match answer {
            Ok(()) => print!(rt; " 0")?,
            Err(refusal) => print!(rt; " {}", refusal.number())?,
        }
    }
    println!(rt; "")?;
    Ok(())
}

fn all<K: Keeper>(rt: &HostRuntime, name: &str, keeper: &mut K) -> anyhow::Result<()> {
    line(rt, name, &[])?;
    line(
        rt,
        "32 and 33 atoms, 64 and 65 items, 33 atoms and 65 items",
        &lengths(keeper),
    )?;
    line(
        rt,
        "nested 4 and 5, 5 and 33 atoms, one close too few, a close alone",
        &nested(keeper),
    )?;
    line(
        rt,
        "all in range, then too high: node, atom of the left path, atom, node, node of a path",
        &ranges(keeper),
    )?;
    line(
        rt,
        "a pair, again, again with another right side, another pair",
        &pairs(keeper),
    )
}

fn main(rt: HostRuntime) -> anyhow::Result<()> {
    let heap = rt.alloc();
    let mut flat = FlatList::new(heap)?;
    all(&rt, "flat list", &mut flat)?;
    let mut tree = PrefixTree::new(heap)?;
    all(&rt, "prefix tree", &mut tree)?;
    let mut addendum = Addendum::new(heap)?;
    all(&rt, "addendum", &mut addendum)
}
