//! Rows of figures: how they are timed, and how they are printed.
use crate::failure::Failure;
use crate::work::Work;
use std::alloc::Global;
use std::sync::Wait;
use std::thread::Threads;
use std::time::{Clock, CpuClock, Duration};

// The number of rounds. The least and the median time are printed.
const ROUNDS: usize = 7;

/// What a turn is: what its calls are of (`shared` is the table that threads share), the number of threads, its name, and the number of turns in
/// a round. There are so few that a round takes a millisecond or two, and often ends before other work gets the processor.
pub struct Workload(pub &'static str, pub u16, pub &'static str, pub u32);

/// What is timed: its name, its turns, and the work.
pub struct Figure(pub &'static str, pub Workload, pub Work);

/// A goal for two figures of a row, given by their indexes from 0: the most that the first should take, in percent of the second.
pub struct Goal(pub usize, pub usize, pub u64);

/// Figures that are timed beside each other, and goals for them.
pub struct Row(pub &'static [Figure], pub &'static [Goal]);

/// Times the figures of some rows, and prints them. If `quick` is set it makes one turn of each, which shows that they work, and prints nothing.
pub fn time_rows<R: Threads + Wait + Sync + Clock + CpuClock + Print>(
    rt: &R,
    alloc: Global,
    quick: bool,
    rows: &[Row],
) -> Result<(), Failure> {
    for Row(figures, goals) in rows {
        if quick {
            make_each(rt, alloc, figures)?;
        } else {
            time_row(rt, alloc, figures, goals)?;
        }
    }
    Ok(())
}

// Times the figures of a row, one after another in each round, so that other work on the machine affects all of them alike. Prints them, and how
// they compare.
fn time_row<R: Threads + Wait + Sync + Clock + CpuClock + Print>(
    rt: &R,
    alloc: Global,
    figures: &[Figure],
    goals: &[Goal],
) -> Result<(), Failure> {
    let mut times = Vec::new(alloc);
    let told = match time_each(rt, alloc, figures, &mut times) {
        Ok(()) => tell(rt, figures, goals, &times),
        Err(failure) => Err(failure),
    };
    drop(times);
    told
}

// Makes one turn of each.
fn make_each<R: Threads + Wait + Sync + Clock + CpuClock>(
    rt: &R,
    alloc: Global,
    figures: &[Figure],
) -> Result<(), Failure> {
    for figure in figures {
        figure.round(rt, alloc, 1)?;
    }
    Ok(())
}

// Times each figure in each round, and adds the time of a turn to `times`.
fn time_each<R: Threads + Wait + Sync + Clock + CpuClock>(
    rt: &R,
    alloc: Global,
    figures: &[Figure],
    times: &mut Vec<u64>,
) -> Result<(), Failure> {
    for _round in 0..ROUNDS {
        for figure in figures {
            if times.push(figure.round(rt, alloc, figure.1.3)?).is_err() {
                return Err(Failure::Memory);
            }
        }
    }
    Ok(())
}

impl Figure {
    // Returns how long a turn took in a round of `turns` turns, in tenths of a nanosecond. Everything is set up anew. Fails if an answer is
    // wrong.
    fn round<R: Threads + Wait + Sync + Clock + CpuClock>(
        &self,
        rt: &R,
        alloc: Global,
        turns: u32,
    ) -> Result<u64, Failure> {
        let Figure(_, Workload(_, threads, _, _), work) = self;
        let spent = work.round(rt, alloc, *threads, turns)?;
        Ok(tenths(spent, turns))
    }
}

// Returns the time of each of `turns` turns, in tenths of a nanosecond.
fn tenths(spent: Duration, turns: u32) -> u64 {
    let tenths = spent.as_nanos().saturating_mul(10);
    match tenths.checked_div(u128::from(turns)) {
        Some(each) => u64::try_from(each).unwrap_or(u64::MAX),
        None => 0,
    }
}

// Prints all figures, and then how they compare.
fn tell<R: Print>(
    rt: &R,
    figures: &[Figure],
    goals: &[Goal],
    times: &[u64],
) -> Result<(), Failure> {
    for (place, figure) in figures.iter().enumerate() {
        let (least, median) = told_of(times, place, figures.len());
        print_line(rt, figure, "least", least)?;
        print_line(rt, figure, "median", median)?;
    }
    for goal in goals {
        print_goal(rt, figures, times, goal)?;
    }
    Ok(())
}

// Returns how long a turn took in the least round and in the median one, for the figure at `place` in a row of `figures` figures.
fn told_of(times: &[u64], place: usize, figures: usize) -> (u64, u64) {
    let mut rounds = [0; ROUNDS];
    for round in 0..ROUNDS {
        let at = round.wrapping_mul(figures).wrapping_add(place);
        rounds[round] = times.get(at).copied().unwrap_or(u64::MAX);
    }
    rounds.sort_unstable();
    (rounds[0], rounds[ROUNDS / 2])
}

// Prints the line for programs: NAME OF THREADS WHAT NS, where WHAT ends with the kind of the round.
fn print_line<R: Print>(rt: &R, figure: &Figure, kind: &str, tenths: u64) -> Result<(), Failure> {
    let Figure(name, Workload(of, threads, what, _), _) = figure;
    println!(rt;
        "{name} {of} {threads} {what}_{kind} {}.{}",
        tenths / 10,
        tenths % 10
    )?;
    Ok(())
}

// Prints how long a figure takes in percent of another: by the least rounds, by the median ones, and the goal.
fn print_goal<R: Print>(
    rt: &R,
    figures: &[Figure],
    times: &[u64],
    goal: &Goal,
) -> Result<(), Failure> {
    let Goal(one, other, most) = goal;
    let took = told_of(times, *one, figures.len());
    let compared = told_of(times, *other, figures.len());
    let least = percent(took.0, compared.0);
    let median = percent(took.1, compared.1);
    let (Some(figure), Some(beside)) = (figures.get(*one), figures.get(*other)) else {
        return Err(Failure::Unexpected);
    };
    println!(rt;
        "{} {} takes {least}% of {} {}, {median}% in the median; at most {most}% are wanted",
        figure.0, figure.1.1, beside.0, beside.1.1
    )?;
    Ok(())
}

fn percent(took: u64, compared: u64) -> u64 {
    took.saturating_mul(100)
        .checked_div(compared)
        .unwrap_or(u64::MAX)
}
