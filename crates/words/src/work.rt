//! What is done under the house that words choose.
ghost use Rattle.std.specs.Prelude.{map};
ghost use Rattle.houses.specs.Rules.{Rules};
ghost use Rattle.words.specs.Houses.{DoneUnder, listed_made, rules_said};

use crate::{Choice, Unmade, choose, list_words};
use balanced::Balanced;
use book::book::{Book, Row};
use houses::house::House;
use houses::plain::Plain;
use listed::Listed;

// One for each two-digit number, in an array: the library takes no memory of its own.
const MOST_BANKS: usize = 100;

/// What can be done under any house.
// A trait and no closure: a closure cannot be generic over the house.
pub trait Work: Drop {
    type Output;

    ghost gives: { Self → Rules → Self.Output → Type 0 };

    fn under<H: House>(self, house: &H) -> Self::Output
        ensures { gives self (H.House.rules house.now) result };
}

// The work under the listed house of these bank lines.
fn under_listed<W: Work>(lines: &[&[u8]], work: W) -> Result<W::Output, Unmade>
    ensures { DoneUnder (W.gives work) (listed_made (map (λ x. x.now) lines.now)) result }
{
    let none: &[u8] = b"";
    let mut rows = [Row {
        number: 0,
        value: none,
    }; MOST_BANKS];
    let mut list = Book::new(&mut rows);
    list_words(&mut list, lines)?;
    Ok(work.under(&Listed { list: &list }))
}

/// Does the work under the house that words choose; or says why there is none.
pub fn under<W: Work>(words: &[&[u8]], work: W) -> Result<W::Output, Unmade>
    ensures { DoneUnder (W.gives work) (rules_said (map (λ x. x.now) words.now)) result }
{
    let [_, lines @ ..] = words else {
        return Err(Unmade::Words);
    };
    // a `match`: three houses of three types
    match choose(words).ok_or(Unmade::Words)? {
        Choice::Plain => Ok(work.under(&Plain)),
        Choice::Listed => under_listed(lines, work),
        Choice::Balanced(bsb, account) => Ok(work.under(&Balanced::new(bsb, account)?)),
    }
}
