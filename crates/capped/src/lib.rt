//! An example of a house: no payment is above a limit.

#![tactic(auto)]

ghost use Rattle.capped.specs.Capped.{capped_rules};
ghost use Rattle.capped.specs.Laws.{capped_sound};

use headers::Header;
use houses::house::House;
use houses::objection::Objection;
use payments::Payment;
use tally::Tally;

/// A house with a limit to each payment.
#[derive(Clone, Copy, PartialEq, Eq, Debug)]
pub struct Capped {
    /// The most cents that one payment may have.
    pub most: u64,
}

// The house's only objection: a payment is above the limit.
const TOO_MUCH: Objection = Objection {
    reason: 1,
    column: 21,
};

impl House for Capped {
    ghost rules = { λ house. capped_rules house.most };

    ghost sound = { λ house. capped_sound house.most };

    fn objects_to_header(&self, _header: &Header) -> Option<Objection> {
        None
    }

    fn objects_to_payment(&self, payment: &Payment) -> Option<Objection> {
        (payment.cents > self.most).then_some(TOO_MUCH)
    }

    fn objects_to_tally(&self, _tally: &Tally) -> Option<u8> {
        None
    }
}
