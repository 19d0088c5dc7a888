//! The listed house knows the banks of a list.

#![tactic(auto)]

ghost use Rattle.std.specs.Prelude.{◌≡◌};
ghost use Rattle.listed.specs.Laws.{listed_sound};
ghost use Rattle.listed.specs.Listed.{banks_of, listed_rules, number, named, numbered, bank_digits};

pub mod banks;

use book::book::Book;
use headers::Header;
use houses::house::House;
use houses::objection::Objection;
use payments::Payment;
use tally::Tally;

/// The house that knows the banks of a list, whichever rows the list has.
// Without equality, as the book that it goes by.
#[derive(Clone, Copy)]
pub struct Listed<'l, 'a, 'n> {
    pub list: &'l Book<'a, &'n [u8]>,
}

// What the house says no for, by the number that it reports: `as` gives it, a `From` would say it again by hand.
#[derive(Clone, Copy, PartialEq, Eq, Debug)]
enum Reason {
    // the header's bank is not on the list, by its name
    Name = 1,
    // the bank of a BSB is not on the list, by its number
    Number = 2,
}

impl Reason {
    // The objection for this reason, at a column. Each house's reasons are an enum of its own, and so each has this.
    fn at(self, column: usize) -> Objection
        ensures { result ≡ record { reason = number self; column = column } }
    {
        Objection {
            reason: self as u8,
            column,
        }
    }
}

fn has_bank(list: &Book<&[u8]>, bsb: u64) -> bool
    ensures { result ≡ numbered (bank_digits bsb) (banks_of list.now.held) }
{
    list.find(bsb / 10_000).is_some()
}

fn has_name(list: &Book<&[u8]>, name: &[u8]) -> bool
    ensures { result ≡ named name.now (banks_of list.now.held) }
{
    list.rows().iter().any(|row| row.value == name)
}

impl<'l, 'a, 'n> House for Listed<'l, 'a, 'n> {
    ghost rules = { λ h. listed_rules (banks_of h.list.now.held) };

    ghost sound = { λ h. listed_sound (banks_of h.list.now.held) };

    fn objects_to_header(&self, header: &Header) -> Option<Objection> {
        if has_name(self.list, header.bank) {
            None
        } else {
            Some(Reason::Name.at(21))
        }
    }

    fn objects_to_payment(&self, payment: &Payment) -> Option<Objection> {
        if !has_bank(self.list, payment.bsb) {
            Some(Reason::Number.at(2))
        } else if !has_bank(self.list, payment.trace_bsb) {
            Some(Reason::Number.at(81))
        } else {
            None
        }
    }

    fn objects_to_tally(&self, _tally: &Tally) -> Option<u8> {
        None
    }
}
