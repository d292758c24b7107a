//! The program: runs its words on standard input and output and on the files that they name.
#![tactic(auto)]

use pc_port::{RealShelf, RealSink, RealSource};
use pc_theorem::{Spendings, start};
use std::process::ExitCode;
use std::{env, io};

fn main(rt: HostRuntime) -> ExitCode {
    let mut input = RealSource::new(rt.reader());
    let mut shelf = RealShelf::new(rt.alloc(), &rt);
    let mut out = RealSink::new(io::writer(&rt));
    let mut spent = Spendings::new(rt.alloc());
    let status = start(
        rt.alloc(),
        env::args(&rt),
        &mut input,
        &mut shelf,
        &mut out,
        &mut spent,
    );
    ExitCode::from(status.number())
}
