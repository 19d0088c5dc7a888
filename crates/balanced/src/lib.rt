//! The balanced house settles each file through one account, which the file's last payment names.

#![tactic(auto)]

ghost use Rattle.std.specs.Prelude.{◌≡◌, ℕ, ◌+◌, ◌≤◌, List, ◌==◌, take};
ghost use Rattle.std.specs.List.{position};
ghost use Rattle.kinds.specs.Kinds.{answered, map_ok};
ghost use Rattle.balanced.specs.Balanced.{balanced_rules, balanced_wrong, in_text, number};
ghost use Rattle.balanced.specs.Laws.{balanced_sound};

use faults::{Fault, Place};
use fields::account::Account;
use fields::bsb::Bsb;
use headers::Header;
use houses::house::House;
use houses::objection::Objection;
use kinds::kind::judge_field;
use payments::Payment;
use tally::Tally;

/// The settling BSB and account. Only `new` makes one, so that both are admitted.
#[derive(Clone, Copy, PartialEq, Eq, Debug)]
pub struct Balanced<'a> {
    bsb: u64,
    account: &'a [u8],
}

// The only bank that the house serves.
const BANK_NAME: &[u8] = b"BQL";

// Why the balanced house says no, by the number that it reports: `as` gives it, a `From` would say it again by hand.
#[derive(Clone, Copy, PartialEq, Eq, Debug)]
enum Reason {
    BankName = 1,
    Code,
    Semicolon,
    SidesDiffer,
    NotSettling,
    NotAlone,
}

impl Reason {
    // The objection for this reason, at a column. Each house's reasons are an enum of its own, and so each has this.
    fn at(self, column: usize) -> Objection
        ensures { result ≡ record { reason = number self; column = column } }
    {
        Objection {
            reason: self as u8,
            column,
        }
    }
}

// Where the first semicolon of a text stands, of those in its first `len` bytes.
fn first_semicolon(text: &[u8], len: usize) -> Option<usize>
    ensures { result ≡ position (λ b. b == 59) (take len text.now) }
{
    text.iter().take(len).position(|byte| *byte == b';')
}

// The columns of a text, all of them in the record.
#[derive(Clone, Copy, PartialEq, Eq, Debug)]
struct Columns {
    start: usize,
    len: usize,
    ghost in_record: { start + len ≤ 121 },
}

const USER_NAME: Columns = Columns { start: 31, len: 26 };

const DESCRIPTION: Columns = Columns { start: 63, len: 12 };

const TITLE: Columns = Columns { start: 31, len: 32 };

const REFERENCE: Columns = Columns { start: 63, len: 18 };

const REMITTER: Columns = Columns { start: 97, len: 16 };

// The objection to the first semicolon of a text that stands in these columns.
fn semicolon(text: &[u8], columns: Columns) -> Option<Objection>
    ensures { result ≡ in_text columns.start columns.len text.now }
{
    let offset = first_semicolon(text, columns.len)?;
    Some(Reason::Semicolon.at(columns.start + offset))
}

impl<'a> Balanced<'a> {
    /// The house of a settling BSB and account, which are judged as in a form.
    pub fn new(bsb: u64, account: &'a [u8]) -> Result<Balanced<'a>, Fault>
        ensures { map_ok {W = ℕ × List ℕ} (λ b. (b.bsb, b.account.now)) result ≡ answered (balanced_wrong bsb account.now) (bsb, account.now) }
    {
        judge_field(&Bsb, bsb, Place { line: 0, column: 2 })?;
        judge_field(&Account, account, Place { line: 0, column: 9 })?;
        Ok(Balanced { bsb, account })
    }
}

impl<'a> House for Balanced<'a> {
    ghost rules = { λ b. balanced_rules b.bsb b.account.now };

    ghost sound = { λ b. balanced_sound b.bsb b.account.now };

    fn objects_to_header(&self, header: &Header) -> Option<Objection> {
        if header.bank != BANK_NAME {
            return Some(Reason::BankName.at(21));
        }
        semicolon(header.user_name, USER_NAME).or(semicolon(header.description, DESCRIPTION))
    }

    fn objects_to_payment(&self, payment: &Payment) -> Option<Objection> {
        if matches!(payment.code, 51 | 52) {
            return Some(Reason::Code.at(19));
        }
        semicolon(payment.title, TITLE)
            .or(semicolon(payment.reference, REFERENCE))
            .or(semicolon(payment.remitter, REMITTER))
    }

    fn objects_to_tally(&self, tally: &Tally) -> Option<u8> {
        if tally.credit() != tally.debit() {
            return Some(Reason::SidesDiffer as u8);
        }
        match tally.last {
            Some(last) if last.bsb == self.bsb && last.account == self.account => {
                (tally.side_count(last.code) != 1).then_some(Reason::NotAlone as u8)
            }
            _ => Some(Reason::NotSettling as u8),
        }
    }
}
