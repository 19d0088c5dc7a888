//! What payments come to, code by code: how a tally is made, grows and is summed.

#![tactic(auto)]

ghost use Rattle.std.specs.Prelude.{◌≡◌, []};
ghost use Rattle.tally.specs.Tallies.{last_of, one_more, place_of, rows_cents, rows_count, rows_credit, rows_debit, shown_last, side_count, tallied, tally_of, with_payment};
ghost use Rattle.payments.specs.Payments.{payment_of};

use payments::Payment;

/// How many payments have a code, and their cents.
#[derive(Clone, Copy, PartialEq, Eq, Debug)]
pub struct Row {
    pub count: u64,
    pub cents: u64,
}

/// The last payment, by what a house is shown of it.
#[derive(Clone, Copy, PartialEq, Eq, Debug)]
pub struct Last<'a> {
    pub bsb: u64,
    pub account: &'a [u8],
    // a number, as in a payment: a tally takes any
    pub code: u64,
}

impl<'a> From<&Payment<'a>> for Last<'a> {
    ghost from_gives = { λ payment last. last_of last ≡ shown_last (payment_of payment.now) };

    fn from(payment: &Payment<'a>) -> Last<'a> {
        Last {
            bsb: payment.bsb,
            account: payment.account,
            code: payment.code,
        }
    }
}

/// A row for each of the codes 13 and 50 to 57, and the last payment.
#[derive(Clone, Copy, PartialEq, Eq, Debug)]
pub struct Tally<'a> {
    pub rows: [Row; 9],
    pub last: Option<Last<'a>>,
}

// The place of a code's row, where the table has the code. A tally keeps its nine rows in place, in an array with no heap, so a code has a place and not a key.
fn place_of(code: u64) -> Option<usize>
    ensures { result ≡ place_of code }
{
    match code {
        13 => Some(0),
        // at most 8: there is no `From` that narrows
        50..=57 => Some((code - 49) as usize),
        _ => None,
    }
}

impl Row {
    // Counts one payment more.
    fn add(&mut self, cents: u64)
        ensures { self.new ≡ one_more self.old cents }
    {
        self.count = self.count.saturating_add(1);
        self.cents = self.cents.saturating_add(cents);
    }
}

// Two sums and no closure for what is summed: its clause would have to say what the closure gives.
// How many payments some rows count. A sum does not wrap, since a slice has fewer than 2^64 rows.
fn count_of(rows: &[Row]) -> u128
    ensures { result ≡ rows_count rows.now }
{
    rows.iter().map(|row| u128::from(row.count)).sum()
}

// The cents of some rows.
fn cents_of(rows: &[Row]) -> u128
    ensures { result ≡ rows_cents rows.now }
{
    rows.iter().map(|row| u128::from(row.cents)).sum()
}

impl<'a> Tally<'a> {
    /// Of no payments.
    pub fn new() -> Tally<'a>
        ensures { tally_of result ≡ tallied [] }
    {
        Tally {
            rows: [Row { count: 0, cents: 0 }; 9],
            last: None,
        }
    }

    /// With one payment more.
    pub fn add(&mut self, payment: &Payment<'a>)
        ensures { tally_of self.new ≡ with_payment (tally_of self.old) (payment_of payment.now) }
    {
        if let Some(place) = place_of(payment.code) {
            self.rows[place].add(payment.cents);
        }
        self.last = Some(Last::from(payment));
    }

    /// The cents of the credits.
    pub fn credit(&self) -> u128
        ensures { result ≡ rows_credit self.now.rows }
    {
        cents_of(&self.rows[1..])
    }

    /// The cents of the debits.
    pub fn debit(&self) -> u128
        ensures { result ≡ rows_debit self.now.rows }
    {
        cents_of(&self.rows[..1])
    }

    /// How many payments there are.
    pub fn count(&self) -> u128
        ensures { result ≡ rows_count self.now.rows }
    {
        count_of(&self.rows)
    }

    /// How many payments are on the side of a code.
    pub fn side_count(&self, code: u64) -> u128
        ensures { result ≡ side_count self.now.rows code }
    {
        if code == 13 {
            count_of(&self.rows[..1])
        } else {
            count_of(&self.rows[1..])
        }
    }
}
