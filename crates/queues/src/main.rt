// Drives every kind of line-up by the same list of calls, and compares each with a plain scan of as many places.
#![tactic(auto)]

use lineup::{Heap, LineUp, Pair, Roll, Table};
use trial::{Scan, Step, Tally, compare, draw_steps};

const SEED: u64 = 2026;

const CALLS: usize = 6000;

// How many calls there are of each kind.
#[derive(Clone, Copy, Default)]
struct Calls {
    puts: u64,
    take_outs: u64,
    keys: u64,
    fronts: u64,
    clears: u64,
}

// Counts the calls of each kind, in one pass.
fn count_calls(steps: &[Step]) -> Calls {
    let mut calls = Calls::default();
    for step in steps {
        let count = match step {
            Step::Put { .. } => &mut calls.puts,
            Step::TakeOut { .. } => &mut calls.take_outs,
            Step::KeyOf { .. } => &mut calls.keys,
            Step::Front => &mut calls.fronts,
            Step::Clear => &mut calls.clears,
        };
        *count = count.saturating_add(1);
    }
    calls
}

// Says how many calls there are of each kind.
fn show_calls(rt: &HostRuntime, steps: &[Step]) -> anyhow::Result<()> {
    let Calls {
        puts,
        take_outs,
        keys,
        fronts,
        clears,
    } = count_calls(steps);
    println!(rt;
        "{} calls, drawn from the seed {SEED}, the same for each line-up",
        steps.len()
    )?;
    println!(rt;
        "{puts} puts, {take_outs} take-outs, {keys} questions for a key, {fronts} for the front, {clears} times cleared"
    )?;
    Ok(())
}

// Drives a line-up and a plain scan of as many places, says what came of it, and answers in how many answers they differ.
fn drive<L: LineUp>(
    rt: &HostRuntime,
    name: &str,
    line: &mut L,
    steps: &[Step],
) -> anyhow::Result<u64> {
    let mut scan = Scan::like(rt.alloc(), line)?;
    let Tally {
        calls,
        refused,
        none,
        differing,
    } = compare(line, &mut scan, steps);
    println!(rt;
        "{name}, {} places: {calls} calls, {refused} refused, {none} answered none, {differing} not as the plain scan",
        line.capacity()
    )?;
    Ok(differing)
}

// Drives every kind, and says whether all agreed.
fn drive_all(rt: &HostRuntime) -> anyhow::Result<()> {
    let steps = draw_steps(rt.alloc(), SEED, CALLS)?;
    show_calls(rt, &steps)?;
    let table = drive(rt, "table", &mut Table::new(), &steps)?;
    let heap = drive(rt, "heap", &mut Heap::new(), &steps)?;
    let mut hall = Pair::new(Table::new(), Heap::new());
    let pair = drive(rt, "pair of table and heap", &mut hall, &steps)?;
    let low = Pair::new(Table::new(), Table::new());
    let high = Pair::new(Heap::new(), Table::new());
    let pairs = drive(rt, "pair of two pairs", &mut Pair::new(low, high), &steps)?;
    if [table, heap, pair, pairs] == [0; 4] {
        println!(rt; "all agreed with the plain scan")?;
    } else {
        println!(rt; "NOT all agreed with the plain scan")?;
    }
    Ok(())
}

fn main(rt: HostRuntime) -> anyhow::Result<()> {
    drive_all(&rt)
}
