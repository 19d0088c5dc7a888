//! A day of the years 2000 to 2099, as DDMMYY.
ghost use Rattle.std.specs.Prelude.{◌≡◌, length, refl};
ghost use Rattle.fields.specs.Laws.Dates.{date_lawful, date_in_field};
ghost use Rattle.fields.specs.Numbers.{date_kind, date_of, a_day, days_in, leap, digit, AllDigits};

use crate::date::Date;
use crate::number::{is_digit, number_of, spell_digits};
use crate::whole::expect;
use faults::{Cause, Misfit};
use kinds::kind::{ConstantKind, FieldKind};
use kinds::shape::Shape;

fn is_leap(year: u64) -> bool
    ensures { result ≡ leap year }
{
    year % 4 == 0 && (year % 100 != 0 || year % 400 == 0)
}

fn days_in(year: u64, month: u64) -> u64
    ensures { result ≡ days_in year month }
{
    match month {
        2 => if is_leap(year) { 29 } else { 28 },
        4 | 6 | 9 | 11 => 30,
        _ => 31,
    }
}

fn is_day(date: Date) -> bool
    ensures { result ≡ a_day date }
{
    1 <= date.month
        && date.month <= 12
        && 1 <= date.day
        && date.day <= days_in(date.year, date.month)
}

// What six digits say.
fn date_of(field: &[u8]) -> Date
    requires width { length field.now ≡ 6 }
    requires digits { AllDigits field.now }
    ensures { result ≡ date_of field.now }
{
    Date {
        day: number_of(&field[0..2]),
        month: number_of(&field[2..4]),
        year: 2000 + number_of(&field[4..6]),
    }
}

/// A date, DDMMYY.
#[derive(Clone, Copy, PartialEq, Eq, Debug)]
pub struct Day;

impl Shape for Day {
    const WIDTH: usize = 6;

    ghost WIDTH = { 6 };

    ghost admits = { λ _ _ b. digit b };

    fn admits(&self, _place: usize, byte: u8) -> bool {
        is_digit(byte)
    }
}

impl<'a> FieldKind<'a> for Day {
    type Value = Date;

    ghost kind = { λ _. date_kind };

    ghost shown = { λ _ d. d };

    ghost shape = { λ _ _ _ _ _. refl };

    ghost laws = { λ _. date_lawful };

    fn columns(&self) -> usize {
        Self::WIDTH
    }

    fn value(&self, field: &'a [u8]) -> Result<Date, Misfit> {
        let date = date_of(field);
        expect(is_day(date), Cause::NoSuchValue)?;
        Ok(date)
    }

    fn judge(&self, value: Date) -> Result<(), Misfit> {
        expect(2000 <= value.year && value.year <= 2099, Cause::TooWide)?;
        expect(is_day(value), Cause::NoSuchValue)
    }

    fn spell(&self, value: Date, out: &mut [u8]) {
        spell_digits(value.day, &mut out[0..2]);
        spell_digits(value.month, &mut out[2..4]);
        spell_digits(value.year - 2000, &mut out[4..6]);
    }
}

impl<'a> ConstantKind<'a> for Day {
    ghost shape = { λ _. (refl, refl) };

    ghost in_field = { λ _. date_in_field };
}
