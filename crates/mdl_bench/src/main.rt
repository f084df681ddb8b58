//! `mdl_bench` times calls: of sessions of the table that threads share (alone, through a context, on several threads, and compared with the
//! bare atomic steps of the same work), of a space of one thread, and of one lock's book; and searches for deadlocks.
//!
//! A row is a group of figures. Each is timed once in each of seven rounds. For each figure the program prints two lines for other programs: the
//! time of a turn in the fastest round, and in the median one. For readers it prints how figures compare. With the argument `quick` it makes one
//! turn of each, which shows that all of them work, and prints nothing. With `pairs TURNS KNOWN HELD` it makes only TURNS pairs of calls, by a
//! session that knows KNOWN places and holds HELD tickets. With `reads TURNS KEPT` it makes only TURNS reads, through a cache that keeps KEPT
//! tables.
#![tactic(auto)]

mod beside;
mod books;
mod contexts;
mod crowds;
mod failure;
mod guests;
mod lap;
mod many;
mod mixed;
mod patient;
mod places;
mod play;
mod probes;
mod reads;
mod row;
mod rows;
mod seat;
mod session;
mod space;
mod table;
mod through;
mod words;
mod work;

use failure::Failure;
use play::{Task, time_task};
use reads::Reading;
use row::time_rows;
use rows::{LOWER, ONE_THREAD, READS_AND_WAITS, THREADS};
use session::Stock;
use std::alloc::Global;
use std::process::ExitCode;
use std::sync::Wait;
use std::thread::Threads;
use std::time::{Clock, CpuClock};

fn main(rt: HostRuntime) -> ExitCode {
    let outcome = match command_line(&rt) {
        Ok(wanted) => answer(&rt, rt.alloc(), wanted),
        Err(failure) => Err(failure),
    };
    match outcome {
        Ok(()) => ExitCode::SUCCESS,
        Err(failure) => {
            let _ = eprintln!(rt; "{}", failure.text());
            ExitCode::FAILURE
        }
    }
}

// Does what the command line asks for.
fn answer<R: Threads + Wait + Sync + Clock + CpuClock + Print>(
    rt: &R,
    alloc: Global,
    wanted: Wanted,
) -> Result<(), Failure> {
    let Wanted { what, numbers } = wanted;
    let [turns, one, other] = numbers;
    let task = match what {
        What::Rows => return time_all(rt, alloc, false),
        What::Quick => return time_all(rt, alloc, true),
        What::Pairs => Task::Pairs(Stock {
            known: small(one),
            held: small(other),
        }),
        What::Reads => Task::Reads(Reading::Cached, small(one), 1),
    };
    time_task(rt, alloc, &task, 1, turns)?;
    Ok(())
}

// Times all rows. Each group of them has a function of its own: in one the prover would have too many constants at once.
fn time_all<R: Threads + Wait + Sync + Clock + CpuClock + Print>(
    rt: &R,
    alloc: Global,
    quick: bool,
) -> Result<(), Failure> {
    time_one_thread(rt, alloc, quick)?;
    time_threads(rt, alloc, quick)?;
    time_lower(rt, alloc, quick)
}

fn time_one_thread<R: Threads + Wait + Sync + Clock + CpuClock + Print>(
    rt: &R,
    alloc: Global,
    quick: bool,
) -> Result<(), Failure> {
    time_rows(rt, alloc, quick, ONE_THREAD)?;
    time_rows(rt, alloc, quick, READS_AND_WAITS)
}

fn time_threads<R: Threads + Wait + Sync + Clock + CpuClock + Print>(
    rt: &R,
    alloc: Global,
    quick: bool,
) -> Result<(), Failure> {
    time_rows(rt, alloc, quick, THREADS)
}

fn time_lower<R: Threads + Wait + Sync + Clock + CpuClock + Print>(
    rt: &R,
    alloc: Global,
    quick: bool,
) -> Result<(), Failure> {
    time_rows(rt, alloc, quick, LOWER)
}

// What the command line asks for: a word, and the numbers after it.
struct Wanted {
    what: What,
    numbers: [u32; 3],
}

// What its first word is.
enum What {
    Rows,
    Quick,
    Pairs,
    Reads,
}

fn command_line(rt: &HostRuntime) -> Result<Wanted, Failure> {
    let mut numbers = [0u32; 3];
    let mut words = std::env::args(rt)?.skip(1);
    let what = match words.next() {
        Some(word) => what_of(word.as_str()),
        None => What::Rows,
    };
    for (number, word) in numbers.iter_mut().zip(words) {
        *number = word.parse::<u32>().unwrap_or(0);
    }
    Ok(Wanted { what, numbers })
}

fn what_of(word: &str) -> What {
    if word == "quick" {
        What::Quick
    } else if word == "pairs" {
        What::Pairs
    } else if word == "reads" {
        What::Reads
    } else {
        What::Rows
    }
}

fn small(number: u32) -> u16 {
    u16::try_from(number).unwrap_or(u16::MAX)
}
