//! Runs each example of the folder in which it is started, and says how it ended and whether it printed the text that
//! is kept beside it. Then it runs each table of runs, and says how many it has, and which of them didn't end as the table says.
#![tactic(auto)]

mod running;
mod tables;

use crate::running::{read_all, run_on};
use crate::tables::judge;
use pc_port::{RealShelf, Shelf, ShelfFault};
use std::alloc::Global;
use std::io;

/// The words of each run, the files that its input is made of, and the file that has what it prints.
const EXAMPLES: &str = "\
replay; clinic.sheet clinic.commands; clinic.display
replay; configurator.sheet configurator.commands; configurator.display
replay; nights.sheet nights.commands; nights.display
replay; roster.sheet roster.commands; roster.display
replay; school.sheet school.commands; school.display
replay; server.sheet server.commands; server.display
replay; shop.sheet shop.commands; shop.display
replay; timetable.sheet timetable.commands; timetable.display
replay; trip.sheet trip.commands; trip.display
replay; tutorial_configurator.sheet tutorial_configurator.commands; tutorial_configurator.display
replay; tutorial_roster.sheet tutorial_roster.commands; tutorial_roster.display
replay; tutorial_timetable.sheet tutorial_timetable.commands; tutorial_timetable.display
replay; van.sheet van.commands; van.display
replay; ward.sheet ward.commands; ward.display
check weekend.sheet; weekend.certificate; weekend.display
";

/// The tables of runs.
const TABLES: &str = "\
rows/asking.rows
rows/budgets.rows
rows/certificates.rows
rows/clauses.rows
rows/counting.rows
rows/faults.rows
rows/modes.rows
rows/pairs.rows
rows/reading.rows
rows/repairs.rows
rows/several.rows
rows/sheets.rows
";

// Runs an example, and says how that ended, and if not the text that is kept of it was printed.
fn told_example<H: Shelf>(
    alloc: Global,
    shelf: &mut H,
    words: &str,
    input: &str,
    text: &str,
) -> Result<String, ShelfFault> {
    let bytes = read_all(alloc, shelf, input)?;
    let (status, out) = run_on(alloc, words, shelf, bytes)?;
    let printed = read_all(alloc, shelf, text)?;
    let differs = if out.bytes() == printed.as_slice() {
        ""
    } else {
        "differs, "
    };
    Ok(format!(in alloc; "{differs}status {}", status.number())?)
}

// Says how many runs a table has, and which of them didn't end so.
fn told_table<H: Shelf>(alloc: Global, shelf: &mut H, table: &str) -> Result<String, ShelfFault> {
    let mut wrong = String::new(alloc);
    let runs = judge(alloc, shelf, table, &mut wrong)?;
    Ok(format!(in alloc; "runs {runs}{wrong}")?)
}

fn main(rt: HostRuntime) -> io::Result<()> {
    let mut shelf = RealShelf::new(rt.alloc(), &rt);
    for example in EXAMPLES.lines() {
        let (words, files) = example.split_once("; ").unwrap_or((example, ""));
        let (input, text) = files.split_once("; ").unwrap_or((files, ""));
        match told_example(rt.alloc(), &mut shelf, words, input, text) {
            Ok(told) => println!(rt; "{text} {told}")?,
            Err(_) => println!(rt; "{text} has a file that can't be read")?,
        }
    }
    for table in TABLES.lines() {
        match told_table(rt.alloc(), &mut shelf, table) {
            Ok(told) => println!(rt; "{table} {told}")?,
            Err(_) => println!(rt; "{table} has a file that can't be read")?,
        }
    }
    Ok(())
}
