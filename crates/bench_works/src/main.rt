//! How long a manager takes, and its parts: its calls, pages, batches of them, a device in memory, the lock table and the search for cycles; and a manager over
//! files. `bench_works WORK ROUNDS` does one kind of work in memory so often and prints the nanoseconds of a round; `bench_works WORK SIZE DIR [N]` works over
//! files of a folder. With no words it prints what one round, or a hundred, of some counts, and how it is called.
#![tactic(auto)]

mod calls;
mod checkpointing;
mod files;
mod manager;
mod preparing;
mod waiting;

use bench_parts::host::Host;
use bench_parts::{WORKS, named};
use std::process::ExitCode;
use std::{env, io};

/// Measures the work of a name and prints it; a name of no work prints how the program is called.
fn measure(rt: &HostRuntime, name: &str, rounds: u64) -> io::Result<()> {
    let host = Host::new(rt)?;
    let (nanos, sum) = if let Some(work) = named(&calls::WORKS, name) {
        calls::measured(&host, work, rounds)
    } else if let Some(work) = named(&WORKS, name) {
        bench_parts::measured(&host, work, rounds)?
    } else {
        return print_usage(rt);
    };
    println!(rt; "{name} {nanos} ns a round ({sum})")
}

fn print_usage(rt: &HostRuntime) -> io::Result<()> {
    println!(rt;
        "bench_works WORK ROUNDS: bench/calls, bench/pages, bench/locks and bench/cycles name the works"
    )?;
    files::print_usage(rt)
}

/// Does what the words ask for. With none it prints how many records a page takes, what rounds with the lock table count, how many of a hundred rounds of each
/// work of a manager are done, and how the program is called.
fn run(rt: &HostRuntime, words: &[String]) -> io::Result<ExitCode> {
    match words {
        [_, work, size, folder] => return files::run(rt, work, size, folder, None),
        [_, work, size, folder, n] => return files::run(rt, work, size, folder, Some(n.as_str())),
        [_, name, rounds] => match rounds.as_str().parse::<u64>() {
            Ok(rounds) => measure(rt, name.as_str(), rounds)?,
            Err(_) => print_usage(rt)?,
        },
        _ => {
            bench_parts::count(rt)?;
            calls::count(rt)?;
            print_usage(rt)?;
        }
    }
    Ok(ExitCode::SUCCESS)
}

fn main(rt: HostRuntime) -> io::Result<ExitCode> {
    let words: Vec<String> = env::args(&rt)?.collect(rt.alloc())?;
    run(&rt, &words)
}
