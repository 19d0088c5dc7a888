//! How a book is made, filled and read.
ghost use Rattle.std.specs.Prelude.{◌≡◌, ◌≤◌, [], length, is_ok, if◌then◌else◌};
ghost use Rattle.kinds.specs.Kinds.{answered};
ghost use Rattle.book.specs.Added.{empty_book, added};
ghost use Rattle.book.specs.Books.{row_fault, above_last, with_row, FoundAt};
ghost use Rattle.book.specs.Search.{Climbs};

use crate::book::{Book, Row};
use crate::numbered::{Numbered, search};
use faults::{Cause, Fault};

impl<V> Numbered for Row<V> {
    ghost key = { λ r. r.number };

    fn number(&self) -> u64 {
        self.number
    }
}

impl<'a, V: Drop> Book<'a, V> {
    /// A book that holds no rows, and has room for as many as the slice.
    #[tactic(auto, using(crate::specs::Laws::same))]
    pub fn new(rows: &'a mut [Row<V>]) -> Book<'a, V>
        ensures held { result.held ≡ record { rows = []; room = length rows.old } }
        ensures whole { result ≡ empty_book (length rows.old) }
    {
        Book { rows, used: 0 }
    }

    /// The rows in use.
    pub fn rows(&self) -> &[Row<V>]
        ensures all { result.now ≡ self.now.held.rows }
        ensures rising { Climbs (λ r. r.number) result.now }
        ensures within { length result.now ≤ self.now.held.room }
    {
        &self.rows[..self.used]
    }

    /// Where the row of a number stands, if there is one.
    pub fn find(&self, number: u64) -> Option<usize>
        ensures { FoundAt self.now.held.rows number result }
    {
        let rows = self.rows();
        let place = search(rows, number);
        if place < rows.len() && rows[place].number == number {
            Some(place)
        } else {
            None
        }
    }

    /// A row at the end: refused where its number is not above the last one's, and then where every row is taken.
    pub fn add(&mut self, row: Row<V>) -> Result<(), Fault>
        ensures answer { result ≡ answered (row_fault self.old.held row.number) tt }
        ensures after { self.new.held ≡ (if is_ok result then with_row self.old.held row else self.old.held) }
        ensures whole { self.new ≡ (if is_ok result then added self.old row else self.old) }
    {
        expect_above(self.rows(), row.number)?;
        if self.used >= self.rows.len() {
            return Err(Cause::BookFull.at(0, 0));
        }
        self.rows[self.used] = row;
        self.used += 1;
        Ok(())
    }
}

// A number above the last row's, if there is one.
fn expect_above<V>(rows: &[Row<V>], number: u64) -> Result<(), Fault>
    ensures { result ≡ answered (above_last rows.now number) tt }
{
    let [.., last] = rows else {
        return Ok(());
    };
    if number <= last.number {
        return Err(Cause::NotRising.at(0, 0));
    }
    Ok(())
}
