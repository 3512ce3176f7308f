//! The storage manager as a program: settings and a script come on standard input, the answers go to standard output, and the causes of refusals to standard error.
#![tactic(auto)]

mod asking;
mod causes;
mod checkpoints;
mod crew;
mod devices;
mod forcing;
mod manager;
mod program;
mod rounds;
mod shown;
mod streams;
mod threads;
mod tickets;
mod wrong_lines;

pub use program::run;
pub use shore_world as world;
use std::fs::File;
use std::io;
use std::process::ExitCode;

/// What can be opened everywhere, and of which each read and write fails, as one of a closed stream does.
const NOWHERE: &str = "/";

fn main(rt: HostRuntime) -> ExitCode {
    // Standard streams that are closed leave their numbers free. No file of a pair may get one, and an answer be written over it: these take them before.
    let _streams = (
        File::open(&rt, NOWHERE),
        File::open(&rt, NOWHERE),
        File::open(&rt, NOWHERE),
    );
    run(rt.alloc(), &rt, rt.reader(), io::writer(&rt), rt.stderr())
}
