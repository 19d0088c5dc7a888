//! One record of a file, by its line.
ghost use Rattle.std.specs.Prelude.{◌≡◌};
ghost use Rattle.kinds.specs.Kinds.{map_ok};
ghost use Rattle.reading.specs.Records.{record_of};
ghost use Rattle.reading.specs.Worked.{Worked};
ghost use Rattle.reading.specs.Reading.{rest_at, first_at, later_at, record_at};

use crate::records::Record;
use faults::Fault;
use headers::Header;
use lines::{Line, Tag, cut_line};
use payments::Payment;
use trailers::Trailer;

// The bytes of a file from a line on. No product of line and 122 wraps.
fn rest_at(file: &[u8], line: usize) -> &[u8]
    ensures { result.now ≡ rest_at file.now line }
{
    line.checked_sub(1)
        .and_then(|before| before.checked_mul(122))
        .and_then(|start| file.get(start..))
        .unwrap_or(b"")
}

// What line 1 says.
fn first_record(line: Line) -> Result<Record, Fault>
    ensures { map_ok record_of result ≡ first_at line.entry.number line.entry.columns.now }
{
    line.expect_header()?;
    let header = Header::read(line)?;
    Ok(Record::Header(header))
}

// What a later line says.
fn later_record(line: Line) -> Result<Record, Fault>
    ensures { map_ok record_of result ≡ later_at line.entry.number line.entry.columns.now }
{
    match line.expect_later()? {
        Tag::Detail => {
            let payment = Payment::read(line)?;
            Ok(Record::Detail(payment))
        }
        Tag::Trailer => {
            let trailer = Trailer::read(line)?;
            Ok(Record::Trailer(trailer))
        }
    }
}

/// What a line of a file says, or why it says nothing. Line 0 is a line with no bytes.
#[tactic(auto, using(crate::proofs::Worked::worked))]
pub fn record(file: &[u8], line: usize) -> Result<Record, Fault>
    ensures answer { map_ok record_of result ≡ record_at line (rest_at file.now line) }
    ensures worked { Worked }
{
    let (cut, _) = cut_line(rest_at(file, line), line)?;
    if line == 1 {
        first_record(cut)
    } else {
        later_record(cut)
    }
}
