//! The interface to a bank's extra rules. The reader is written once, over all houses.
ghost use Rattle.std.specs.Prelude.{◌≡◌};
ghost use Rattle.headers.specs.Headers.{header_of};
ghost use Rattle.payments.specs.Payments.{payment_of};
ghost use Rattle.houses.specs.Rules.{Rules, Sound};
ghost use Rattle.tally.specs.Tallies.{tally_of};

use crate::objection::Objection;
use headers::Header;
use payments::Payment;
use tally::Tally;

/// A house is one bank's extra rules. Each question answers what its rule says of the values shown, alike each time, and alters nothing.
// No question has a default body: that `None` is the answer depends on the house's rules.
pub trait House {
    ghost rules: { Self → Rules };

    ghost sound: { (s : Self) → Sound (rules s) };

    /// The objection to a header; none is a yes.
    fn objects_to_header(&self, header: &Header) -> Option<Objection>
        ensures { result ≡ (rules self.now).header (header_of header.now) };

    /// The objection to a payment; none is a yes.
    fn objects_to_payment(&self, payment: &Payment) -> Option<Objection>
        ensures { result ≡ (rules self.now).payment (payment_of payment.now) };

    /// The reason against a tally, from 1 to 250; none is a yes.
    // A number as in an objection: each bank's house has reasons of its own.
    fn objects_to_tally(&self, tally: &Tally) -> Option<u8>
        ensures { result ≡ (rules self.now).tally (tally_of tally.now) };
}
