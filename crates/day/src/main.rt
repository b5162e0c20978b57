// A day of the locker hall, told line by line: what a store went through, what it reads, and what a cache keeps of it.
#![tactic(auto)]

mod caching;
mod hall;
mod refusals;
mod shown;
mod telling;

use cache::Entry;
use caching::{tell_cache, tell_full};
use hall::{tell_both, tell_day};
use recency::Recency;
use refusals::{tell_end, tell_making, tell_refusals};
use split::Split;
use std::io;
use terms::{Fault, HIGHEST};
use undo::UndoStore;
use versions::VersionStore;

// What ends the telling: nothing can be printed, or something could not be made.
#[derive(Debug, Drop)]
enum Trouble {
    Unprinted(io::Error),
    Unmade,
}

impl From<io::Error> for Trouble {
    fn from(error: io::Error) -> Trouble {
        Trouble::Unprinted(error)
    }
}

impl From<Fault> for Trouble {
    fn from(_: Fault) -> Trouble {
        Trouble::Unmade
    }
}

fn tell_versions(rt: &HostRuntime) -> Result<(), Trouble> {
    let heap = rt.alloc();
    let mut store = VersionStore::new(heap, 6, 10)?;
    let mut last = VersionStore::new(heap, 1, HIGHEST)?;
    println!(rt; "The version store, 6 places, empty at 10")?;
    tell_day(rt, &mut store)?;
    tell_refusals(rt, &mut store)?;
    tell_end(rt, &mut last)?;
    tell_making(rt, "0 places", VersionStore::new(heap, 0, 10))?;
    tell_making(rt, "4097 places", VersionStore::new(heap, 4097, 10))?;
    tell_making(
        rt,
        "a first moment past the highest",
        VersionStore::new(heap, 6, HIGHEST + 1),
    )?;
    Ok(())
}

fn tell_undo(rt: &HostRuntime) -> Result<(), Trouble> {
    let heap = rt.alloc();
    let mut journal = [undo::Entry::default(); 6];
    let mut short = [undo::Entry::default(); 1];
    let mut again = [undo::Entry::default(); 6];
    let mut store = UndoStore::new(heap, &mut journal, 10)?;
    let mut last = UndoStore::new(heap, &mut short, HIGHEST)?;
    println!(rt; "")?;
    println!(rt; "The undo store, 6 rows and a journal of 6 entries, empty at 10")?;
    tell_day(rt, &mut store)?;
    tell_refusals(rt, &mut store)?;
    tell_end(rt, &mut last)?;
    tell_making(rt, "0 places", UndoStore::new(heap, &mut [], 10))?;
    tell_making(
        rt,
        "a first moment past the highest",
        UndoStore::new(heap, &mut again, HIGHEST + 1),
    )?;
    Ok(())
}

fn tell_stores(rt: &HostRuntime) -> Result<(), Trouble> {
    let heap = rt.alloc();
    let mut journal = [undo::Entry::default(); 6];
    let mut one = VersionStore::new(heap, 6, 10)?;
    let mut other = UndoStore::new(heap, &mut journal, 10)?;
    println!(rt; "")?;
    println!(rt; "The version store and the undo store side by side")?;
    tell_both(rt, &mut one, &mut other)?;
    Ok(())
}

fn tell_node(rt: &HostRuntime) -> Result<(), Trouble> {
    let mut four = [Entry::blank(); 4];
    let mut two = [Entry::blank(); 2];
    println!(rt; "")?;
    println!(rt; "The recency node, 4 places")?;
    tell_cache(rt, &mut Recency::new(&mut four)?)?;
    println!(rt; "The recency node, 2 places")?;
    tell_full(rt, &mut Recency::new(&mut two)?)?;
    Ok(())
}

fn tell_split(rt: &HostRuntime) -> Result<(), Trouble> {
    let mut one = [Entry::blank(); 2];
    let mut two = [Entry::blank(); 1];
    let mut three = [Entry::blank(); 3];
    let odd = Split::new(Recency::new(&mut two)?, Recency::new(&mut three)?);
    let mut all = Split::new(Recency::new(&mut one)?, odd);
    println!(rt; "")?;
    println!(rt; "A split of splits, 2 places for even keys and 3 for odd ones")?;
    tell_cache(rt, &mut all)?;
    tell_full(rt, &mut all)?;
    Ok(())
}

fn main(rt: HostRuntime) -> Result<(), Trouble> {
    tell_versions(&rt)?;
    tell_undo(&rt)?;
    tell_stores(&rt)?;
    tell_node(&rt)?;
    tell_split(&rt)
}
