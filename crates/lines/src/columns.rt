//! The columns of one line.
ghost use Rattle.std.specs.Prelude.{◌≡◌, length};

use crate::Tag;
use faults::{Cause, Fault, Place};

/// The columns of a line, and its number in the file, from 1 up.
#[derive(Clone, Copy, PartialEq, Eq, Debug)]
pub struct Line<'a> {
    pub columns: &'a [u8; 120],
    pub number: usize,
    // an array behind a reference shows its length only where it is looked at
    ghost wide: { length columns.now ≡ 120 },
}

impl<'a> Line<'a> {
    ghost use Rattle.std.specs.Prelude.{slice_index};
    ghost use Rattle.kinds.specs.Kinds.{answered};
    ghost use Rattle.kinds.specs.Layouts.{start};
    ghost use Rattle.lines.specs.Lines.{head_fault, tagged};

    /// The line of a number that has these columns, whichever they are.
    pub fn new(columns: &'a [u8; 120], number: usize) -> Line<'a>
        ensures columns { result.columns.now ≡ columns.now }
        ensures number { result.number ≡ number }
    {
        Line { columns, number }
    }

    /// Where its first column is.
    pub fn start(self) -> Place
        ensures { result ≡ start self.entry.number }
    {
        Place {
            line: self.number,
            column: 1,
        }
    }

    /// Line 1 is due a header.
    pub fn expect_header(self) -> Result<(), Fault>
        ensures { result ≡ answered (head_fault self.entry.number (slice_index self.entry.columns.now 0)) tt }
    {
        if self.columns[0] != b'0' {
            return Err(Cause::RecordType.at(self.number, 1));
        }
        Ok(())
    }

    /// A later line is due a detail or the trailer.
    pub fn expect_later(self) -> Result<Tag, Fault>
        ensures { result ≡ tagged self.entry.number (slice_index self.entry.columns.now 0) }
    {
        match self.columns[0] {
            b'1' => Ok(Tag::Detail),
            b'7' => Ok(Tag::Trailer),
            _ => Err(Cause::RecordType.at(self.number, 1)),
        }
    }
}
