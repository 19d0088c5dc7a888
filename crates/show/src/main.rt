//! Reads a file from standard input under the plain house, and prints one line.

#![tactic(auto)]

use houses::plain::Plain;
use reading::summary::Summary;
use report::answer::Answer;
use std::io::Read;

// The most bytes that are read.
const MOST: usize = 65_514;

fn main(rt: HostRuntime) -> anyhow::Result<()> {
    let mut file = Vec::new(rt.alloc());
    // there is no `From<usize>`
    rt.stdin().take(MOST as u64 + 1).read_to_end(&mut file)?;
    if file.len() > MOST {
        println!(rt; "too long")?;
    } else {
        let answer = Answer::of_file(&file, &Plain, &mut Summary::new());
        println!(rt; "{answer}")?;
    }
    Ok(())
}
