//! Runs stored files through `read` and `record`, and prints what they answer.
//! The answers that it is held to were made by the second implementation.

#![tactic(auto)]

ghost use Rattle.houses.specs.Rules.{Rules};

mod cases;

use anyhow::anyhow;
use cases::Cases;
use faults::Fault;
use houses::house::House;
use reading::record::record;
use reading::records::Record;
use reading::summary::Summary;
use report::answer::Answer;
use report::record::{Bsb, RecordLine};
use std::io::{BufWriter, Read, Write};
use std::str::from_utf8;
use tally::Tally;
use words::Unmade;
use words::work::{Work, under};

// The codes of a tally's rows, which have places and no codes of their own.
const CODES: [u64; 9] = [13, 50, 51, 52, 53, 54, 55, 56, 57];

// A case's file, the line that names its records, and where its answers go. Nothing compares it, so it has no equality.
#[derive(Drop)]
struct Case<'a, W> {
    out: &'a mut W,
    file: &'a [u8],
    lines: &'a str,
}

impl<W: Write> Case<'_, W> {
    fn print_tally(&mut self, tally: &Tally) -> anyhow::Result<()> {
        write!(self.out, "tally")?;
        for (code, row) in CODES.iter().zip(&tally.rows) {
            let count = row.count;
            let cents = row.cents;
            write!(self.out, " {code}:{count}:{cents}")?;
        }
        if let Some(last) = tally.last {
            let bsb = Bsb(last.bsb);
            let account = from_utf8(last.account)?;
            let code = last.code;
            write!(self.out, " last {bsb} {account} {code}")?;
        }
        writeln!(self.out)?;
        Ok(())
    }

    fn print_file<H: House>(&mut self, house: &H) -> anyhow::Result<()> {
        let mut place = Summary::new();
        let answer = Answer::of_file(self.file, house, &mut place);
        writeln!(self.out, "{answer}")?;
        if answer.0.is_ok() {
            self.print_tally(&place.tally)?;
        }
        Ok(())
    }

    fn print_record(&mut self, line: usize) -> anyhow::Result<()> {
        match record(self.file, line) {
            Ok(record) => {
                let shown = RecordLine(record);
                writeln!(self.out, "{line}: {shown}")?;
                if !is_spelled_back(self.file, line, record) {
                    writeln!(self.out, "{line}: is spelled otherwise")?;
                }
            }
            Err(fault) => writeln!(self.out, "{line}: {fault}")?,
        }
        Ok(())
    }
}

// A record spelled again, from its values.
fn spelled(record: Record) -> Result<[u8; 120], Fault> {
    let mut columns = [0; 120];
    match record {
        Record::Header(header) => header.spell(&mut columns)?,
        Record::Detail(payment) => payment.spell(&mut columns)?,
        Record::Trailer(trailer) => trailer.spell(&mut columns)?,
    }
    Ok(columns)
}

// Whether a record is spelled as its line has it.
fn is_spelled_back(file: &[u8], line: usize, record: Record) -> bool {
    let start = line.saturating_sub(1).saturating_mul(122);
    let part = file.get(start..start.saturating_add(120));
    spelled(record).is_ok_and(|columns| part == Some(columns.as_slice()))
}

impl<W: Write> Work for Case<'_, W> {
    type Output = anyhow::Result<()>;

    ghost gives = { λ _ _ _. Unit {0} };

    // What the house says of the file, and what its lines say by themselves.
    fn under<H: House>(mut self, house: &H) -> anyhow::Result<()> {
        self.print_file(house)?;
        for line in self.lines.split(' ').skip(1) {
            self.print_record(line.parse::<usize>()?)?;
        }
        Ok(())
    }
}

// Prints what a house of these words says of a case, or why there is none.
fn print_under(
    out: &mut impl Write,
    words: &[&[u8]],
    file: &[u8],
    lines: &str,
) -> anyhow::Result<()> {
    match under(
        words,
        Case {
            out: &mut *out,
            file,
            lines,
        },
    ) {
        Ok(printed) => printed,
        Err(Unmade::Words) => Err(anyhow!("a case has no house")),
        Err(Unmade::Refused(fault)) => {
            writeln!(out, "house {fault}")?;
            Ok(())
        }
    }
}

fn main(rt: HostRuntime) -> anyhow::Result<()> {
    let heap = rt.alloc();
    let mut stored = Vec::new(heap);
    rt.stdin().read_to_end(&mut stored)?;
    let mut cases = Cases::new(&stored);
    let mut out = BufWriter::new(heap, rt.stdout())?;
    let mut file = Vec::new(heap);
    // Until no case is left, which is long before the numbers are.
    for number in 1..u64::MAX {
        let Some(house) = cases.next_case()? else {
            break;
        };
        let words: Vec<&[u8]> = house.split(|byte| *byte == b' ').collect(heap)?;
        cases.file(&mut file)?;
        writeln!(out, "case {number}")?;
        print_under(&mut out, &words, &file, cases.lines()?)?;
    }
    out.flush()?;
    Ok(())
}
