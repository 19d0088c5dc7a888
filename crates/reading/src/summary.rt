//! What an accepted file comes to.
use tally::Tally;
use trailers::Trailer;

/// The tally of a file's payments, and their totals.
#[derive(Clone, Copy, PartialEq, Eq, Debug)]
pub struct Summary<'a> {
    pub tally: Tally<'a>,
    pub totals: Trailer,
}

impl<'a> Summary<'a> {
    ghost use Rattle.std.specs.Prelude.{◌≡◌, []};
    ghost use Rattle.reading.specs.Reading.{summary_of, summed};

    /// What no payments come to: a place for `read` to write to.
    pub fn new() -> Summary<'a>
        ensures { summary_of result ≡ summed [] }
    {
        Summary {
            tally: Tally::new(),
            totals: Trailer {
                net: 0,
                credit: 0,
                debit: 0,
                count: 0,
            },
        }
    }
}
