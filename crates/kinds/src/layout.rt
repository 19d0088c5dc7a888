//! A record as a row of fields, read, judged and spelled by one text for every layout.
ghost use Rattle.std.specs.Prelude.{◌≡◌, ◌+◌, ◌^◌, ◌<◌, List, [], ◌∷◌, length, OnOk};
ghost use Rattle.kinds.specs.Kinds.{Kind, answered, map_ok};
ghost use Rattle.kinds.specs.Layouts.{Values, size, AllLawful, AllInField, first_fault, values, form_fault, spelled};

use crate::kind::{ConstantKind, FieldKind, judge_field, take_field};
use faults::{Fault, Place};

// `room` stays with each call: a place is any line and column, and a bound in its type would be asked for where one is made.
// `width` stays too: the size of a row is a sum, and no constant that an array's type could name.
/// A row of fields: nothing, `()`, or a kind and the row after it, `(kind, row)`.
pub trait Layout<'a> {
    type Values: Copy;

    ghost kinds: { Self → List Kind };

    ghost shown: { (s : Self) → Self.Values → Values (kinds s) };

    /// The values of a record's fields, or its first fault.
    fn read(&self, bytes: &'a [u8], at: Place) -> Result<Self::Values, Fault>
        requires width { length bytes.now ≡ size (kinds self.now) }
        requires room { at.column + size (kinds self.now) < 2 ^ 64 }
        ensures { map_ok (shown self.now) result ≡ answered (first_fault (kinds self.now) at bytes.now) (values (kinds self.now) bytes.now) };

    /// Writes a form's values, each in its columns, up to the first that is refused.
    fn spell(&self, values: Self::Values, at: Place, out: &mut [u8]) -> Result<(), Fault>
        requires width { length out.old ≡ size (kinds self.now) }
        requires room { at.column + size (kinds self.now) < 2 ^ 64 }
        ensures answer { result ≡ answered (form_fault (kinds self.now) at (shown self.now values)) tt }
        ensures after { OnOk result (out.new ≡ spelled (kinds self.now) (shown self.now values)) };

    ghost laws: { (s : Self) → AllLawful (kinds s) };
}

/// A row of kinds of which each keeps `InField`, as kinds of constant width do.
pub trait ConstantLayout<'a>: Layout<'a> {
    // what is wrong with each field stands in it, or right behind it
    ghost in_field: { (s : Self) → AllInField (Self.kinds s) };
}

impl<'a> Layout<'a> for () {
    type Values = ();

    ghost kinds = { λ _. [] };

    ghost shown = { λ _ v. v };

    ghost laws = { λ _. tt };

    fn read(&self, _bytes: &'a [u8], _at: Place) -> Result<(), Fault> {
        Ok(())
    }

    fn spell(&self, _values: (), _at: Place, _out: &mut [u8]) -> Result<(), Fault> {
        Ok(())
    }
}

impl<'a, K: FieldKind<'a>, L: Layout<'a>> Layout<'a> for (K, L) {
    type Values = (K::Value, L::Values);

    ghost kinds = { λ s. K.kind s.0 ∷ L.kinds s.1 };

    ghost shown = { λ s v. (K.shown s.0 v.0, L.shown s.1 v.1) };

    ghost laws = { λ s. (K.laws s.0, L.laws s.1) };

    fn read(&self, bytes: &'a [u8], at: Place) -> Result<(K::Value, L::Values), Fault> {
        let width = self.0.columns();
        let (field, rest) = bytes.split_at(width);
        let value = take_field(&self.0, field, at)?;
        let others = self.1.read(rest, at.right(width))?;
        Ok((value, others))
    }

    fn spell(&self, values: (K::Value, L::Values), at: Place, out: &mut [u8]) -> Result<(), Fault> {
        judge_field(&self.0, values.0, at)?;
        let width = self.0.columns();
        let (field, rest) = out.split_at_mut(width);
        self.0.spell(values.0, field);
        self.1.spell(values.1, at.right(width), rest)
    }
}

impl<'a> ConstantLayout<'a> for () {
    ghost in_field = { λ _. tt };
}

impl<'a, K: ConstantKind<'a>, L: ConstantLayout<'a>> ConstantLayout<'a> for (K, L) {
    ghost in_field = { λ s. (K.in_field s.0, L.in_field s.1) };
}
