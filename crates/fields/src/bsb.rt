//! A bank, state and branch: three digits, a hyphen, three digits.
ghost use Rattle.std.specs.Prelude.{◌≡◌, refl};
ghost use Rattle.fields.specs.Laws.Dates.{bsb_lawful, bsb_in_field};
ghost use Rattle.fields.specs.Numbers.{bsb_kind};

use crate::number::{is_digit, number_of, spell_digits};
use crate::whole::expect;
use faults::{Cause, Misfit};
use kinds::kind::{ConstantKind, FieldKind};
use kinds::shape::Shape;

/// A BSB, whose value is the number of its six digits.
#[derive(Clone, Copy, PartialEq, Eq, Debug)]
pub struct Bsb;

impl Shape for Bsb {
    const WIDTH: usize = 7;

    ghost WIDTH = { 7 };

    ghost admits = { λ _. bsb_kind.admits };

    fn admits(&self, place: usize, byte: u8) -> bool {
        if place == 3 {
            byte == b'-'
        } else {
            is_digit(byte)
        }
    }
}

impl<'a> FieldKind<'a> for Bsb {
    type Value = u64;

    ghost kind = { λ _. bsb_kind };

    ghost shown = { λ _ n. n };

    ghost shape = { λ _ _ _ _ _. refl };

    ghost laws = { λ _. bsb_lawful };

    fn columns(&self) -> usize {
        Self::WIDTH
    }

    fn value(&self, field: &'a [u8]) -> Result<u64, Misfit> {
        Ok(number_of(&field[0..3]) * 1000 + number_of(&field[4..7]))
    }

    fn judge(&self, value: u64) -> Result<(), Misfit> {
        expect(value < 1_000_000, Cause::TooWide)
    }

    fn spell(&self, value: u64, out: &mut [u8]) {
        let (bank, rest) = out.split_at_mut(3);
        let (hyphen, branch) = rest.split_at_mut(1);
        spell_digits(value / 1000, bank);
        hyphen.fill(b'-');
        spell_digits(value % 1000, branch);
    }
}

impl<'a> ConstantKind<'a> for Bsb {
    ghost shape = { λ _. (refl, refl) };

    ghost in_field = { λ _. bsb_in_field };
}
