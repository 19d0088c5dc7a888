//! What reading a file answers, as one line.
ghost use Rattle.std.specs.Prelude.{◌≡◌, IfOk};
ghost use Rattle.kinds.specs.Kinds.{map_ok};
ghost use Rattle.reading.specs.Reading.{Answers, read_of, summary_of};

use faults::Fault;
use houses::house::House;
use reading::read::read;
use reading::summary::Summary;
use std::fmt;
use trailers::Trailer;

/// The totals of an accepted file, or why it was refused.
#[derive(Clone, Copy, PartialEq, Eq, Debug)]
pub struct Answer(pub Result<Trailer, Fault>);

impl Answer {
    /// What a house says of a file. The place is left as `read` leaves it.
    pub fn of_file<'a, H: House>(file: &'a [u8], house: &H, place: &mut Summary<'a>) -> Answer
        ensures answer { Answers (read_of (H.House.rules house.now) file.now) (summary_of place.old) (map_ok (λ _. tt) result.0) (summary_of place.new) }
        ensures totals { IfOk result.0 (λ totals. totals ≡ place.new.totals) }
    {
        Answer(read(file, house, place).map(|()| place.totals))
    }
}

impl fmt::Display for Answer {
    /// As `accepted details=2 net=0 credit=125050 debit=125050`, or as the fault prints itself.
    fn fmt<W: fmt::Write>(&self, f: &mut fmt::Formatter<W>) -> fmt::Result {
        match self.0 {
            Ok(totals) => {
                let Trailer {
                    net,
                    credit,
                    debit,
                    count,
                } = totals;
                write!(
                    f,
                    "accepted details={count} net={net} credit={credit} debit={debit}"
                )
            }
            Err(fault) => write!(f, "{fault}"),
        }
    }
}
