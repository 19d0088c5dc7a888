//! A mark of one column: blank, N for new details, or W, X, Y for tax withheld.
ghost use Rattle.std.specs.Prelude.{◌≡◌, codes, refl};
ghost use Rattle.fields.specs.Texts.{mark_kind, member};
ghost use Rattle.fields.specs.Laws.Texts.{mark_lawful, mark_in_field};

use crate::whole::expect;
use faults::{Cause, Misfit};
use kinds::kind::{ConstantKind, FieldKind};
use kinds::shape::Shape;

/// A mark of one column, whose value is its byte.
#[derive(Clone, Copy, PartialEq, Eq, Debug)]
pub struct Mark;

// Matched as a `char`, since the rule speaks of letters. Its value is a byte and no enum: a form may give any.
fn is_mark(byte: u8) -> bool
    ensures { result ≡ member byte (codes " NWXY") }
{
    match byte as char {
        ' ' | 'N' | 'W' | 'X' | 'Y' => true,
        _ => false,
    }
}

impl Shape for Mark {
    const WIDTH: usize = 1;

    ghost WIDTH = { 1 };

    ghost admits = { λ _. mark_kind.admits };

    fn admits(&self, _place: usize, byte: u8) -> bool {
        is_mark(byte)
    }
}

impl<'a> FieldKind<'a> for Mark {
    type Value = u8;

    ghost kind = { λ _. mark_kind };

    ghost shown = { λ _ v. v };

    ghost shape = { λ _ _ _ _ _. refl };

    ghost laws = { λ _. mark_lawful };

    fn columns(&self) -> usize {
        Self::WIDTH
    }

    fn value(&self, field: &'a [u8]) -> Result<u8, Misfit> {
        Ok(field[0])
    }

    fn judge(&self, value: u8) -> Result<(), Misfit> {
        expect(is_mark(value), Cause::WrongByte)
    }

    fn spell(&self, value: u8, out: &mut [u8]) {
        out[0] = value;
    }
}

impl<'a> ConstantKind<'a> for Mark {
    ghost shape = { λ _. (refl, refl) };

    ghost in_field = { λ _. mark_in_field };
}
