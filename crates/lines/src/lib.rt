//! One line of a file: its 120 columns, and which record they are.

#![tactic(auto)]

ghost use Rattle.std.specs.Prelude.{◌≡◌};
ghost use Rattle.kinds.specs.Kinds.{answered, map_ok};
ghost use Rattle.lines.specs.Lines.{line_fault, cut, cut_of};

mod columns;
pub mod form;

pub use columns::Line;
use faults::{Cause, Fault};

/// What a line after the first begins.
#[derive(Clone, Copy, PartialEq, Eq, Debug)]
pub enum Tag {
    Detail,
    Trailer,
}

/// The line of this number, and what follows it, where `rest` is what is left of the file there.
pub fn cut_line(rest: &[u8], number: usize) -> Result<(Line<'_>, &[u8]), Fault>
    ensures { map_ok cut_of result ≡ answered (line_fault number rest.now) (cut number rest.now) }
{
    let short = Cause::Short.at(number, rest.len() + 1);
    let (columns, end) = rest.split_first_chunk::<120>().ok_or(short)?;
    let (end, after) = end.split_first_chunk::<2>().ok_or(short)?;
    if end[0] != b'\r' {
        return Err(Cause::LineEnd.at(number, 121));
    }
    if end[1] != b'\n' {
        return Err(Cause::LineEnd.at(number, 122));
    }
    Ok((Line::new(columns, number), after))
}
