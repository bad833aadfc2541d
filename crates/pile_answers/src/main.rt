// What a pile finds: an addendum over a theory, and one more over both.
#![tactic(auto)]

use addendum::Addendum;
use flat::FlatList;
use pile::Pile;
use std::alloc::Global;
use stores::{Keeper, Store};
use terms::{Atom, Item, Node};

fn finds<S: Store>(store: &S) -> [Option<usize>; 4] {
    let path = [Atom(5), Atom(6), Atom(7)];
    [
        store.find(Node(1), &path[0..0]),
        store.find(Node(1), &path[0..2]),
        store.find(Node(1), &path),
        store.find(Node(2), &path),
    ]
}

// What stands first in right sides of node 1.
fn items<S: Store>(store: &S) -> [Option<Item>; 4] {
    let path = [Atom(5), Atom(6), Atom(7)];
    [
        store.item(Node(1), &path[0..0], 0),
        store.item(Node(1), &path[0..1], 0),
        store.item(Node(1), &path[0..2], 0),
        store.item(Node(1), &path, 0),
    ]
}

// The lengths that are found, 99 for none.
fn show_lengths(rt: &HostRuntime, lengths: [Option<usize>; 4]) -> anyhow::Result<()> {
    print!(rt; "finds:")?;
    for length in lengths {
        print!(rt; " {}", length.unwrap_or(99))?;
    }
    println!(rt; "")?;
    Ok(())
}

// The numbers of atoms, 98 for another item and 99 for none.
fn show_items(rt: &HostRuntime, items: [Option<Item>; 4]) -> anyhow::Result<()> {
    print!(rt; "items:")?;
    for item in items {
        match item {
            Some(Item::Atom(a)) => print!(rt; " {}", a.0)?,
            Some(_) => print!(rt; " 98")?,
            None => print!(rt; " 99")?,
        }
    }
    println!(rt; "")?;
    Ok(())
}

fn found<S: Store>(rt: &HostRuntime, name: &str, store: &S) -> anyhow::Result<()> {
    println!(rt; "{name}:")?;
    show_lengths(rt, finds(store))?;
    show_items(rt, items(store))
}

// The addendum has one of the theory's pairs, with an empty right side.
fn piles(rt: &HostRuntime, heap: Global) -> anyhow::Result<()> {
    let path = [Atom(5), Atom(6), Atom(7)];
    let mut theory = FlatList::new(heap)?;
    let _ = theory.add(Node(1), &[], &[Item::Atom(Atom(10))]);
    let _ = theory.add(Node(1), &path[0..1], &[Item::Atom(Atom(11))]);
    let _ = theory.add(Node(1), &path[0..2], &[Item::Atom(Atom(12))]);
    let mut addendum = Addendum::new(heap)?;
    let _ = addendum.add(Node(1), &path[0..1], &[]);
    let _ = addendum.add(Node(1), &path, &[Item::Atom(Atom(13))]);
    let mut second = Addendum::new(heap)?;
    let _ = second.add(Node(1), &[], &[Item::Atom(Atom(14))]);
    found(rt, "theory", &theory)?;
    let pile = Pile {
        addendum,
        below: &theory,
    };
    found(rt, "pile", &pile)?;
    let piled = Pile {
        addendum: second,
        below: pile,
    };
    found(rt, "pile of a pile", &piled)
}

fn main(rt: HostRuntime) -> anyhow::Result<()> {
    piles(&rt, rt.alloc())
}
