// The claim-code desk on standard input: `make NUMBER` or `read CODE` on each line, and a line of reply for each.
#![tactic(auto)]

use std::io::{BufRead, BufReader};

// Answers each line of the input.
fn answer_lines(rt: &HostRuntime) -> anyhow::Result<()> {
    let mut input = BufReader::new(rt.alloc(), rt.stdin())?;
    let mut line = Vec::new(rt.alloc());
    for number in 1..u64::MAX {
        line.clear();
        if input.read_until(b'\n', &mut line)? == 0 {
            break;
        }
        let reply = desk::reply_to(number, &line);
        println!(rt; "{reply}")?;
    }
    Ok(())
}

fn main(rt: HostRuntime) -> anyhow::Result<()> {
    answer_lines(&rt)
}
