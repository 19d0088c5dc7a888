//! What is wrong, and where: within a field, and then in one type from the line to the file.

#![tactic(auto)]

ghost use Rattle.std.specs.Prelude.{◌≡◌, ◌+◌, ◌<◌, ◌^◌};
ghost use Rattle.faults.specs.Faults.{number, layer, reason, fault_at, placed, right};

use std::error::Error;
use std::fmt;

// A house's reason is a number: each bank's house numbers its own.
/// Why a call is refused. `number` and `layer` say how each is reported.
#[derive(Clone, Copy, PartialEq, Eq, Debug)]
pub enum Cause {
    /// fewer bytes remain than a record and its CR LF have
    Short,
    /// the record is not followed by CR LF
    LineEnd,
    /// the first column names no record that may stand here
    RecordType,
    /// a detail follows 999,999 others
    TooManyDetails,
    /// the number does not stand, or the slip's entry is not out
    NoSuchEntry,
    /// a form's value is wider than its columns, or its year is not 2000 to 2099
    TooWide,
    /// a byte is not admitted at its column
    WrongByte,
    /// a text is blank, an account has no digit 1 to 9, or cents are zero
    Empty,
    /// a blank stands where a text or an account has none
    StrayBlank,
    /// a date is no day of the calendar, or a code is not in the table
    NoSuchValue,
    /// tax without one of the marks W, X, Y
    TaxUnmarked,
    /// the house says no to a header or a payment, for this reason: a number, since each bank's house has its own
    HouseRefused(u8),
    /// numbers have run out, or a row's number is not above the last one's
    NotRising,
    /// every row is taken
    BookFull,
    /// a side would pass ten digits
    SideFull,
    /// an entry is out
    EntryOut,
    /// there is no detail
    NoDetails,
    /// net, credit, debit or count differs
    WrongTotal,
    /// the house says no to the tally, for this reason: a number, as above
    TallyRefused(u8),
    /// bytes follow the trailer
    BytesAfter,
    /// the buffer is shorter than the file
    BufferShort,
}

/// What was being judged when the refusal came.
#[derive(Clone, Copy, PartialEq, Eq, Debug)]
pub enum Layer {
    Line,
    Record,
    File,
    Run,
    Field,
    House,
}

impl Cause {
    /// The number of the refusal, 1 to 21.
    // A `match`, and no `as`: two causes carry a reason.
    pub fn number(self) -> u8
        ensures { result ≡ number self }
    {
        match self {
            Cause::Short => 1,
            Cause::LineEnd => 2,
            Cause::RecordType => 3,
            Cause::TooManyDetails => 4,
            Cause::NoSuchEntry => 5,
            Cause::TooWide => 6,
            Cause::WrongByte => 7,
            Cause::Empty => 8,
            Cause::StrayBlank => 9,
            Cause::NoSuchValue => 10,
            Cause::TaxUnmarked => 11,
            Cause::HouseRefused(_) => 12,
            Cause::NotRising => 13,
            Cause::BookFull => 14,
            Cause::SideFull => 15,
            Cause::EntryOut => 16,
            Cause::NoDetails => 17,
            Cause::WrongTotal => 18,
            Cause::TallyRefused(_) => 19,
            Cause::BytesAfter => 20,
            Cause::BufferShort => 21,
        }
    }

    /// What was being judged, which follows from the cause.
    pub fn layer(self) -> Layer
        ensures { result ≡ layer self }
    {
        match self {
            Cause::Short | Cause::LineEnd => Layer::Line,
            Cause::RecordType | Cause::TaxUnmarked => Layer::Record,
            Cause::TooManyDetails | Cause::NoDetails | Cause::WrongTotal | Cause::BytesAfter =>
                Layer::File,
            Cause::NoSuchEntry
            | Cause::NotRising
            | Cause::BookFull
            | Cause::SideFull
            | Cause::EntryOut
            | Cause::BufferShort => Layer::Run,
            Cause::TooWide
            | Cause::WrongByte
            | Cause::Empty
            | Cause::StrayBlank
            | Cause::NoSuchValue => Layer::Field,
            Cause::HouseRefused(_) | Cause::TallyRefused(_) => Layer::House,
        }
    }

    /// The reason that a house gave, where it was a house that refused.
    pub fn reason(self) -> Option<u8>
        ensures { result ≡ reason self }
    {
        match self {
            Cause::HouseRefused(reason) | Cause::TallyRefused(reason) => Some(reason),
            _ => None,
        }
    }

    /// The refusal at a line and a column.
    pub fn at(self, line: usize, column: usize) -> Fault
        ensures { result ≡ fault_at self line column }
    {
        Fault {
            cause: self,
            line,
            column,
        }
    }
}

impl fmt::Display for Layer {
    fn fmt<W: fmt::Write>(&self, f: &mut fmt::Formatter<W>) -> fmt::Result {
        f.write_str(match self {
            Layer::Line => "line",
            Layer::Record => "record",
            Layer::File => "file",
            Layer::Run => "run",
            Layer::Field => "field",
            Layer::House => "house",
        })
    }
}

/// What is wrong within one field, and how many bytes into it.
#[derive(Clone, Copy, PartialEq, Eq, Debug)]
pub struct Misfit {
    pub cause: Cause,
    pub offset: usize,
}

/// A refusal: why, and at which line and column. Outside reading the line is 0, and a refusal that is about no column has 0
/// there, since a refusal is reported by these numbers.
#[derive(Clone, Copy, PartialEq, Eq, Debug)]
pub struct Fault {
    pub cause: Cause,
    pub line: usize,
    pub column: usize,
}

impl fmt::Display for Fault {
    /// As `refused 18 file line=4 column=31`, and after a house's refusal its reason, as ` reason=3`.
    fn fmt<W: fmt::Write>(&self, f: &mut fmt::Formatter<W>) -> fmt::Result {
        let Fault {
            cause,
            line,
            column,
        } = *self;
        let number = cause.number();
        let layer = cause.layer();
        write!(f, "refused {number} {layer} line={line} column={column}")?;
        match cause.reason() {
            Some(reason) => write!(f, " reason={reason}"),
            None => Ok(()),
        }
    }
}

impl Error for Fault {}

/// Where a field begins.
// What is added to a column has to fit, and each call says so: a place is any line and column.
#[derive(Clone, Copy, PartialEq, Eq, Debug)]
pub struct Place {
    pub line: usize,
    pub column: usize,
}

impl Place {
    /// A misfit of the field that begins here, as a fault.
    pub fn fault(self, misfit: Misfit) -> Fault
        requires { self.column + misfit.offset < 2 ^ 64 }
        ensures { result ≡ placed self misfit }
    {
        Fault {
            cause: misfit.cause,
            line: self.line,
            column: self.column + misfit.offset,
        }
    }

    /// The place so many bytes to the right.
    pub fn right(self, by: usize) -> Place
        requires { self.column + by < 2 ^ 64 }
        ensures { result ≡ right self by }
    {
        Place {
            line: self.line,
            column: self.column + by,
        }
    }
}
