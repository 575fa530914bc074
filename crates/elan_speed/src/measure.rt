//! Times of a plan, and how they are told.
ghost use Rattle.std.specs.Prelude.{◌≡◌};
ghost use Rattle.elan_speed.specs.Plain.{plain};

use crate::bench::{Bench, shapes};
use crate::plan::{Plan, Team, Work};
use elan_front::{Front, PLACES};
use elan_table::{Blank, Name, NoMemory};
use std::alloc::{AllocError, Global};
use std::io;
use std::marker::Brand;
use std::sync::Wait;
use std::thread::{Threads, join};
use std::time::{Clock, CpuClock, Duration, Instant};

/// What a run took.
#[derive(Drop)]
pub struct Measured {
    /// The processor time of the calls, of that thread which took most.
    pub calls: Duration,
    /// The time from before the first call to after the last one.
    pub wall: Duration,
    /// The processor time of letting the table go.
    pub teardown: Duration,
    /// The sum of the numbers of all rows that were answered.
    pub sum: u64,
}

/// What the calls of some threads answered, and the processor time of that which took most.
#[derive(Drop)]
struct Share {
    sum: u64,
    time: Duration,
}

fn thread_time<R: CpuClock>(rt: &R) -> Result<Duration, NoMemory> {
    match rt.thread_cpu_time() {
        Ok(time) => Ok(time),
        Err(_) => Err(AllocError),
    }
}

/// The calls of the thread of this number.
fn calls<N: Name, R: Wait>(
    rt: &R,
    alloc: Global,
    bench: &Bench<N>,
    plan: Plan,
    thread: u32,
) -> Result<u64, NoMemory> {
    match plan.work {
        Work::New => {
            let from = u64::from(thread).wrapping_mul(u64::from(plan.calls));
            bench.make(rt, from, plan.calls)
        }
        Work::Again => bench.ask_table(rt, plan.calls),
        Work::Find => {
            let mut front = Front::new(alloc, PLACES)?;
            bench.ask_front(rt, &mut front, plan.calls)
        }
    }
}

fn one<N: Name, R: CpuClock + Wait>(
    rt: &R,
    alloc: Global,
    bench: &Bench<N>,
    plan: Plan,
    thread: u32,
) -> Result<Share, NoMemory> {
    let begun = thread_time(rt)?;
    let sum = calls(rt, alloc, bench, plan, thread)?;
    let time = thread_time(rt)?.saturating_sub(begun);
    Ok(Share { sum, time })
}

fn together(
    one: Result<Share, NoMemory>,
    other: Result<Share, NoMemory>,
) -> Result<Share, NoMemory> {
    let (one, other) = (one?, other?);
    Ok(Share {
        sum: one.sum.wrapping_add(other.sum),
        time: one.time.max(other.time),
    })
}

/// The calls of two threads, the first of this number.
fn two<N: Name + Send + Sync, R: CpuClock + Threads + Wait + Sync>(
    rt: &R,
    alloc: Global,
    bench: &Bench<N>,
    plan: Plan,
    thread: u32,
) -> Result<Share, NoMemory> {
    let next = thread.wrapping_add(1);
    let (first, second) = join(
        rt,
        || one(rt, alloc, bench, plan, thread),
        || one(rt, alloc, bench, plan, next),
    );
    together(first, second)
}

fn team<N: Name + Send + Sync, R: CpuClock + Threads + Wait + Sync>(
    rt: &R,
    alloc: Global,
    bench: &Bench<N>,
    plan: Plan,
) -> Result<Share, NoMemory> {
    match plan.team {
        Team::One => one(rt, alloc, bench, plan, 0),
        Team::Two => two(rt, alloc, bench, plan, 0),
        Team::Four => {
            let (first, second) = join(
                rt,
                || two(rt, alloc, bench, plan, 0),
                || two(rt, alloc, bench, plan, 2),
            );
            together(first, second)
        }
    }
}

fn run<N: Name + Send + Sync, R: Clock + CpuClock + Threads + Wait + Sync>(
    rt: &R,
    alloc: Global,
    plan: Plan,
    blank: Blank,
) -> io::Result<Measured>
    requires named { blank ≡ (N.root, N.shapes) }
    requires served { N.shapes ≡ plain }
{
    let bench = Bench::new(rt, alloc, blank.named::<N>(alloc)?)?;
    let begun = Instant::now(rt)?;
    let all = team(rt, alloc, &bench, plan)?;
    let wall = Instant::now(rt)?.duration_since(begun);
    let ended = rt.thread_cpu_time()?;
    drop(bench);
    Ok(Measured {
        calls: all.time,
        wall,
        teardown: rt.thread_cpu_time()?.saturating_sub(ended),
        sum: all.sum,
    })
}

/// Runs the plan in a table of its own.
pub fn run_plan<R: AllocGlobal + Clock + CpuClock + Threads + Wait + Sync>(
    rt: &R,
    plan: Plan,
) -> io::Result<Measured> {
    let alloc = rt.alloc();
    let blank = Blank::new(shapes(alloc)?);
    run::<Brand, _>(rt, alloc, plan, blank)
}

/// Prints how many calls there were, and tells the times in nanoseconds as an error is told.
pub fn tell<R: Print + Eprint>(rt: &R, plan: Plan, measured: &Measured) -> io::Result<()> {
    let calls = measured.calls.as_nanos();
    let wall = measured.wall.as_nanos();
    let teardown = measured.teardown.as_nanos();
    let sum = measured.sum;
    eprintln!(rt; "calls {calls}")?;
    eprintln!(rt; "wall {wall}")?;
    eprintln!(rt; "teardown {teardown}")?;
    eprintln!(rt; "sum {sum}")?;
    let each = plan.calls;
    println!(rt; "{each} calls by each thread")
}
