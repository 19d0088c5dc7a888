//! Digits, right justified, zero filled.
ghost use Rattle.std.specs.Prelude.{◌≡◌, ⊤, ℕ, ◌^◌, ◌<◌, ◌≤◌, Bool, length, nat_le, refl};
ghost use Rattle.faults.specs.declared.Cause.{Cause};
ghost use Rattle.faults.specs.declared.Cause.TheVariants.{Empty, NoSuchValue};
ghost use Rattle.kinds.specs.Kinds.{answered};
ghost use Rattle.fields.specs.Laws.Numbers.{numeral_lawful, numeral_in_field};
ghost use Rattle.fields.specs.Numbers.{unless, numeral, in_table, number_of, digits, AllDigits, digit};

use crate::whole::expect;
use faults::{Cause, Misfit};
use kinds::kind::{ConstantKind, FieldKind};
use kinds::shape::Shape;
use std::alloc::AllocError;

// The number that digits write. Not `parse`, which reads a `str` and takes a `+` before it.
pub(crate) fn number_of(bytes: &[u8]) -> u64
    requires short { length bytes.now ≤ 18 }
    requires digits { AllDigits bytes.now }
    ensures { result ≡ number_of bytes.now }
{
    let mut n = 0;
    for byte in bytes {
        n = n * 10 + u64::from(*byte - b'0');
    }
    n
}

// Writes a number into every column, the last digit first. It calls itself once a column: after a loop over `iter_mut` from
// the end the check knows nothing of the columns. And no `write!`, which says nothing of the bytes.
pub(crate) fn spell_digits(n: u64, out: &mut [u8])
    ensures { out.new ≡ digits (length out.old) n }
{
    if let Some((last, front)) = out.split_last_mut() {
        // one digit: there is no `From` that narrows
        *last = b'0' + (n % 10) as u8;
        spell_digits(n / 10, front);
    }
}

pub(crate) fn is_digit(byte: u8) -> bool
    ensures { result ≡ digit byte }
{
    byte.is_ascii_digit()
}

/// Which numbers a field of digits takes, and what any other is refused for.
pub trait Numbers: Copy {
    ghost takes: { ℕ → Bool };

    ghost cause: { Cause };

    fn expect(&self, n: u64) -> Result<(), Misfit>
        ensures { result ≡ answered (unless (takes n) cause) tt };
}

/// The numbers from `LEAST` up.
#[derive(Clone, Copy, PartialEq, Eq, Debug)]
pub struct AtLeast<const LEAST: u64>;

impl<const LEAST: u64> Numbers for AtLeast<LEAST> {
    ghost takes = { nat_le LEAST };

    ghost cause = { Empty };

    fn expect(&self, n: u64) -> Result<(), Misfit> {
        expect(n >= LEAST, Cause::Empty)
    }
}

/// The transaction codes: 13 is a debit, 50 to 57 are credits.
#[derive(Clone, Copy, PartialEq, Eq, Debug)]
pub struct Codes;

impl Numbers for Codes {
    ghost takes = { in_table };

    ghost cause = { NoSuchValue };

    fn expect(&self, n: u64) -> Result<(), Misfit> {
        expect(matches!(n, 13 | 50..=57), Cause::NoSuchValue)
    }
}

/// A number of `W` columns that is one of some numbers.
#[derive(PartialEq, Eq, Debug)]
pub struct Number<const W: usize, N: Numbers> {
    pub numbers: N,
    ghost short: { W ≤ 18 },
}

// By hand: `Clone` is not derived for a struct that has a ghost field and a type parameter.
impl<const W: usize, N: Numbers> Clone for Number<W, N> {
    ghost is_clone = { λ x y. y ≡ x };

    ghost is_infallible = { λ _. ⊤ };

    fn clone(&self) -> Result<Number<W, N>, AllocError> {
        Ok(*self)
    }
}

impl<const W: usize, N: Numbers> Copy for Number<W, N> {}

impl<const W: usize, N: Numbers> Shape for Number<W, N> {
    const WIDTH: usize = W;

    ghost WIDTH = { W };

    ghost admits = { λ _ _ b. digit b };

    fn admits(&self, _place: usize, byte: u8) -> bool {
        is_digit(byte)
    }
}

impl<'a, const W: usize, N: Numbers> FieldKind<'a> for Number<W, N> {
    type Value = u64;

    ghost kind = { λ _. numeral W N.takes N.cause };

    ghost shown = { λ _ n. n };

    ghost shape = { λ _ _ _ _ _. refl };

    ghost laws = { λ _. numeral_lawful W N.takes N.cause };

    fn columns(&self) -> usize {
        Self::WIDTH
    }

    fn value(&self, field: &'a [u8]) -> Result<u64, Misfit> {
        let n = number_of(field);
        self.numbers.expect(n)?;
        Ok(n)
    }

    fn judge(&self, value: u64) -> Result<(), Misfit> {
        // `pow` takes a `u32`, and there is no `From` that narrows
        expect(value < 10u64.pow(W as u32), Cause::TooWide)?;
        self.numbers.expect(value)
    }

    fn spell(&self, value: u64, out: &mut [u8]) {
        spell_digits(value, out);
    }
}

impl<'a, const W: usize, N: Numbers> ConstantKind<'a> for Number<W, N> {
    ghost shape = { λ _. (refl, refl) };

    ghost in_field = { λ _. numeral_in_field W N.takes N.cause };
}
