//! Reads tables of trials, which lie in the folder in which it is started, and says of each how many rows it has, and which of
//! them don't come out as the table says. The tables show what no clause of the crates says.
#![tactic(auto)]

mod books;
mod literals;
mod preferring;
mod reasons;
mod rows;
mod sessions;
mod solving;
mod tables;
mod targets;
mod texts;
mod trial;
mod ways;

use crate::tables::judge;
use pc_port::{RealShelf, Shelf, ShelfFault};
use std::alloc::Global;
use std::io;

/// The tables.
const TABLES: &str = "\
books.rows
counts.rows
edits.rows
preferences.rows
sessions.rows
solver.rows
walks.rows
";

// Says how many rows a table has, and which of them don't come out so.
fn told_table<H: Shelf>(alloc: Global, shelf: &mut H, name: &str) -> Result<String, ShelfFault> {
    let mut bytes = Vec::new(alloc);
    shelf.read(alloc, name, &mut bytes)?;
    Ok(judge(alloc, &bytes)?)
}

fn main(rt: HostRuntime) -> io::Result<()> {
    let mut shelf = RealShelf::new(rt.alloc(), &rt);
    for name in TABLES.lines() {
        match told_table(rt.alloc(), &mut shelf, name) {
            Ok(told) => println!(rt; "{name}: {told}")?,
            Err(_) => println!(rt; "{name} can't be read")?,
        }
    }
    Ok(())
}
