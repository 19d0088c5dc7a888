//! Reads a file from standard input under a house that the arguments choose, and prints what is in it.

#![tactic(auto)]

ghost use Rattle.houses.specs.Rules.{Rules};

use anyhow::anyhow;
use houses::house::House;
use reading::record::record;
use reading::summary::Summary;
use report::answer::Answer;
use report::record::RecordLine;
use std::env;
use std::io::{BufWriter, Read, Write};
use std::process::ExitCode;
use words::work::{Work, under};

// The bytes of a file with 999,999 details; a longer one is refused by what stands there.
const LARGEST: u64 = 122_000_122;

// Judges the file on standard input, and prints what is in it. Nothing compares it, so it has no equality.
#[derive(Clone, Copy)]
struct Inspection<'a> {
    rt: &'a HostRuntime,
}

// The header, so many details and the trailer, found by their lines.
fn print_records(out: &mut impl Write, file: &[u8], details: u64) -> anyhow::Result<()> {
    for line in 1..details.saturating_add(3) {
        // A usize has 64 bits here, so `try_from` would only add an error that cannot come.
        let Ok(record) = record(file, line as usize) else {
            return Err(anyhow!("a record of an accepted file is refused"));
        };
        let shown = RecordLine(record);
        writeln!(out, "{shown}")?;
    }
    Ok(())
}

impl Work for Inspection<'_> {
    type Output = anyhow::Result<ExitCode>;

    ghost gives = { λ _ _ _. Unit {0} };

    // An accepted file ends with success; the answer is printed either way.
    fn under<H: House>(self, house: &H) -> anyhow::Result<ExitCode> {
        let heap = self.rt.alloc();
        let mut file = Vec::new(heap);
        self.rt.stdin().take(LARGEST + 1).read_to_end(&mut file)?;
        let mut out = BufWriter::new(heap, self.rt.stdout())?;
        let answer = Answer::of_file(&file, house, &mut Summary::new());
        writeln!(out, "{answer}")?;
        let status = match answer.0 {
            Ok(totals) => {
                print_records(&mut out, &file, totals.count)?;
                ExitCode::SUCCESS
            }
            Err(_) => ExitCode::FAILURE,
        };
        out.flush()?;
        Ok(status)
    }
}

// An accepted file ends with status 0, all else with 1.
fn main(rt: HostRuntime) -> anyhow::Result<ExitCode> {
    let heap = rt.alloc();
    let Ok(given) = env::args(&rt) else {
        eprintln!(rt; "inspect: the arguments are not UTF-8 text")?;
        return Ok(ExitCode::FAILURE);
    };
    let arguments: Vec<String> = given.skip(1).collect(heap)?;
    let words: Vec<&[u8]> = arguments
        .iter()
        .map(|argument| argument.as_bytes())
        .collect(heap)?;
    match under(&words, Inspection { rt: &rt }) {
        Ok(status) => status,
        Err(why) => {
            eprintln!(rt; "inspect: {why}")?;
            Ok(ExitCode::FAILURE)
        }
    }
}
