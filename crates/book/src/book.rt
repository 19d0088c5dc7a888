//! Numbered rows in a lent slice.

ghost use Rattle.std.specs.Prelude.{◌≤◌, length, take};
ghost use Rattle.book.specs.Search.{Climbs};

use std::marker::Model;

/// A row of any kind that goes by a number.
#[derive(Clone, Copy, PartialEq, Eq, Debug, Drop)]
pub struct Row<V> {
    // a field beside the method of `Numbered`, by which the search goes: so clauses name it, and no definition takes a key
    pub number: u64,
    pub value: V,
}

/// Numbered rows of any kind in rising order of number.
// Without equality: it is seen as its rows, its room and what is so of them.
#[derive(Drop)]
pub struct Book<'a, V> {
    // a lent slice and a length, and no `Vec`: the library takes no memory of its own. The rows in use stand first
    pub(crate) rows: &'a mut [Row<V>],
    pub(crate) used: usize,
    ghost within: { used ≤ length rows.now },
    ghost rising: { Climbs (λ r. r.number) (take used rows.now) },
}

// Ghost fields and no invariant of the model, whose facts only the functions here would see: so they are in the value, and
// whoever has a book has them.
impl<'a, V> Model for Book<'a, V> {
    ghost use Rattle.std.specs.Prelude.{length, take};
    ghost use Rattle.book.specs.Held.{Standing, first_within};

    ghost Value = { Standing V };

    ghost view = { λ b. record { held = record { rows = take b.used b.rows.now; room = length b.rows.now }; within = first_within b.used b.rows.now; rising = b.rising } };
}
