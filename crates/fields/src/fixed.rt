//! Bytes that never vary: blanks, a record's type, a code of the format.
ghost use Rattle.std.specs.Prelude.{◌≡◌, length, refl};
ghost use Rattle.fields.specs.Laws.Fixed.{fixed_lawful, fixed_in_field};
ghost use Rattle.fields.specs.Texts.{fixed_kind};

use faults::Misfit;
use kinds::kind::{ConstantKind, FieldKind};
use kinds::shape::Shape;

/// Exactly the given bytes.
#[derive(Clone, Copy, PartialEq, Eq, Debug)]
pub struct Fixed<const W: usize> {
    // A slice with its length beside it, and not `&'static [u8; W]`: `columns` answers `W` without a look at the bytes, and an
    // array behind a reference shows its length only where it is looked at.
    pub bytes: &'static [u8],
    ghost filled: { length bytes.now ≡ W },
}

impl<const W: usize> Shape for Fixed<W> {
    const WIDTH: usize = W;

    ghost WIDTH = { W };

    ghost admits = { λ s. (fixed_kind s.bytes.now).admits };

    fn admits(&self, place: usize, byte: u8) -> bool {
        place < self.bytes.len() && byte == self.bytes[place]
    }
}

impl<'a, const W: usize> FieldKind<'a> for Fixed<W> {
    type Value = ();

    ghost kind = { λ s. fixed_kind s.bytes.now };

    ghost shown = { λ _ v. v };

    ghost shape = { λ _ _ _ _ _. refl };

    ghost laws = { λ s. fixed_lawful s.bytes.now };

    fn columns(&self) -> usize {
        Self::WIDTH
    }

    fn value(&self, _field: &'a [u8]) -> Result<(), Misfit> {
        Ok(())
    }

    fn judge(&self, _value: ()) -> Result<(), Misfit> {
        Ok(())
    }

    fn spell(&self, _value: (), out: &mut [u8]) {
        out.copy_from_slice(self.bytes);
    }
}

impl<'a, const W: usize> ConstantKind<'a> for Fixed<W> {
    ghost shape = { λ s. (s.filled, refl) };

    ghost in_field = { λ s. fixed_in_field s.bytes.now };
}
