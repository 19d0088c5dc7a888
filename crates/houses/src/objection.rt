//! Why a house says no to a header or a payment.

/// A reason from 1 to 250, and the column that it is about.
#[derive(Clone, Copy, PartialEq, Eq, Debug)]
pub struct Objection {
    // Each bank's house numbers its reasons itself, so there is no enum of them all.
    pub reason: u8,
    pub column: usize,
}
