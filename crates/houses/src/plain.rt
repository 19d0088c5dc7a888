//! The plain house says yes to all.
ghost use Rattle.houses.specs.Laws.{plain_sound};
ghost use Rattle.houses.specs.Rules.{plain_rules};

use crate::house::House;
use crate::objection::Objection;
use headers::Header;
use payments::Payment;
use tally::Tally;

/// Says yes to all.
#[derive(Clone, Copy, PartialEq, Eq, Debug)]
pub struct Plain;

impl House for Plain {
    ghost rules = { λ _. plain_rules };

    ghost sound = { λ _. plain_sound };

    fn objects_to_header(&self, _header: &Header) -> Option<Objection> {
        None
    }

    fn objects_to_payment(&self, _payment: &Payment) -> Option<Objection> {
        None
    }

    fn objects_to_tally(&self, _tally: &Tally) -> Option<u8> {
        None
    }
}
