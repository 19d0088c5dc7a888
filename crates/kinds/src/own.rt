//! A kind of field of one's own.
ghost use Rattle.std.specs.Prelude.{◌≡◌, length, None};
ghost use Rattle.kinds.specs.Kinds.{Kind, Lawful, InField, AllFrom, answered, map_ok};

use crate::kind::{ConstantKind, FieldKind};
use crate::shape::Shape;
use faults::Misfit;

// No kind is written as both: each of the eight is written as a `FieldKind`.
/// A kind of field of constant width, by what has to be written of it: it then is a `FieldKind` and a `ConstantKind`, whose
/// `columns` and clauses `within` follow from the laws here. Where both traits are in scope, a call on such a kind names one,
/// as `FieldKind::value(..)`.
pub trait OwnKind<'a>: Shape {
    type Value: Copy;

    ghost kind: { Self → Kind };

    // how a value of the program stands for one of the definition
    ghost shown: { (s : Self) → Self.Value → (kind s).Value };

    /// The value of a field whose bytes are all admitted, or what is wrong with it as a whole.
    fn value(&self, field: &'a [u8]) -> Result<Self::Value, Misfit>
        requires width { length field.now ≡ Self.WIDTH }
        requires admitted { AllFrom (kind self.now).admits 0 field.now }
        ensures { map_ok (shown self.now) result ≡ answered ((kind self.now).flaw field.now) ((kind self.now).value field.now) };

    /// What a form's value is refused for.
    fn judge(&self, value: Self::Value) -> Result<(), Misfit>
        ensures { result ≡ answered ((kind self.now).wrong (shown self.now value)) tt };

    /// Writes a value that is refused for nothing into the field's columns.
    fn spell(&self, value: Self::Value, out: &mut [u8])
        requires width { length out.old ≡ Self.WIDTH }
        requires admitted { (kind self.now).wrong (shown self.now value) ≡ None }
        ensures { out.new ≡ (kind self.now).spell (shown self.now value) };

    // the width and the bytes that may stand are those of the kind
    ghost shape: { (s : Self) → ((kind s).width ≡ Self.WIDTH) × ((kind s).admits ≡ Self.admits s) };

    ghost laws: { (s : Self) → Lawful (kind s) };

    // what is wrong stands in the field, or right behind it
    ghost in_field: { (s : Self) → InField (kind s) };
}

impl<'a, K: OwnKind<'a>> FieldKind<'a> for K {
    type Value = K::Value;

    ghost kind = { K.kind };

    ghost shown = { K.shown };

    ghost shape = { λ s place byte _ _. (λ i. (K.shape s).1 i place byte) };

    ghost laws = { K.laws };

    fn columns(&self) -> usize {
        K::WIDTH
    }

    fn value(&self, field: &'a [u8]) -> Result<K::Value, Misfit> {
        OwnKind::value(self, field)
    }

    fn judge(&self, value: K::Value) -> Result<(), Misfit> {
        OwnKind::judge(self, value)
    }

    fn spell(&self, value: K::Value, out: &mut [u8]) {
        OwnKind::spell(self, value, out)
    }
}

impl<'a, K: OwnKind<'a>> ConstantKind<'a> for K {
    ghost shape = { K.shape };

    ghost in_field = { K.in_field };
}
