//! What every kind of field gives, and what is written once for all of them: no kind knows where it stands.
ghost use Rattle.std.specs.Prelude.{◌≡◌, ℕ, ◌+◌, ◌^◌, ◌<◌, ◌≤◌, length, None, IfErr};
ghost use Rattle.kinds.specs.Kinds.{Kind, Lawful, InField, AllFrom, refused_from, fault, answered, placed_at, map_ok};

use crate::shape::{Shape, scan};
use faults::{Fault, Misfit, Place};

// A misfit stands in its field or right behind it (`within`), so that it can be placed, once for all kinds.
// `width` stays a clause: a kind may leave its width to its value, and an array of a trait's constant number of bytes has no
// type. `room` stays one as in `Layout`.
/// A kind of field: what may stand in it, what it means, and how a value is spelled.
pub trait FieldKind<'a>: Shape {
    type Value: Copy;

    ghost kind: { Self → Kind };

    // how a value of the program stands for one of the definition
    ghost shown: { (s : Self) → Self.Value → (kind s).Value };

    /// How many columns the field has: a kind may leave that to its value. Each of the eight has its constant `WIDTH`.
    fn columns(&self) -> usize
        ensures { result ≡ (kind self.now).width };

    /// The value of a field whose bytes are all admitted, or what is wrong with it as a whole.
    fn value(&self, field: &'a [u8]) -> Result<Self::Value, Misfit>
        requires width { length field.now ≡ (kind self.now).width }
        requires admitted { AllFrom (kind self.now).admits 0 field.now }
        ensures answer { map_ok (shown self.now) result ≡ answered ((kind self.now).flaw field.now) ((kind self.now).value field.now) }
        ensures within { IfErr result (λ m. m.offset ≤ (kind self.now).width) };

    /// What a form's value is refused for.
    fn judge(&self, value: Self::Value) -> Result<(), Misfit>
        ensures answer { result ≡ answered ((kind self.now).wrong (shown self.now value)) tt }
        ensures within { IfErr result (λ m. m.offset ≤ (kind self.now).width) };

    /// Writes a value that is refused for nothing into the field's columns.
    fn spell(&self, value: Self::Value, out: &mut [u8])
        requires width { length out.old ≡ (kind self.now).width }
        requires admitted { (kind self.now).wrong (shown self.now value) ≡ None }
        ensures { out.new ≡ (kind self.now).spell (shown self.now value) };

    // the bytes that may stand in the field are those of the kind
    ghost shape: { (s : Self) (place byte : ℕ) → place < (kind s).width → byte < 2 ^ 8 → (kind s).admits place byte ≡ Self.admits s place byte };

    ghost laws: { (s : Self) → Lawful (kind s) };
}

// Under this bound a clause may say the width as `WIDTH`. And the laws here are of every place and number, and of all bytes and
// values, where law `shape` and the clauses `within` of `FieldKind` are of those that a call can have.
/// A kind of field whose width is its type's constant, as each of the eight is.
pub trait ConstantKind<'a>: FieldKind<'a> {
    // the width and the bytes that may stand are those of the kind
    ghost shape: { (s : Self) → ((Self.kind s).width ≡ Self.WIDTH) × ((Self.kind s).admits ≡ Self.admits s) };

    // what is wrong stands in the field, or right behind it
    ghost in_field: { (s : Self) → InField (Self.kind s) };
}

// The first byte of a field that may not stand where it stands, wherever the field stands.
fn first_refused<'a, K: FieldKind<'a>>(kind: &K, field: &'a [u8]) -> Result<(), Misfit>
    requires { length field.now ≡ (K.kind kind.now).width }
    ensures answer { result ≡ answered (refused_from (K.kind kind.now).admits 0 field.now None) tt }
    ensures within { IfErr result (λ m. m.offset < length field.now) }
{
    scan(kind, field, 0)
}

// The value of a field, or what is wrong with it, wherever it stands.
#[tactic(auto, using(crate::proofs::Scan::field_refused, crate::proofs::Scan::field_admitted, crate::proofs::Scan::field_flaw, crate::proofs::Scan::refused_first))]
fn value_of<'a, K: FieldKind<'a>>(kind: &K, field: &'a [u8]) -> Result<K::Value, Misfit>
    requires { length field.now ≡ (K.kind kind.now).width }
    ensures answer { map_ok (K.shown kind.now) result ≡ answered (fault (K.kind kind.now) field.now) ((K.kind kind.now).value field.now) }
    ensures within { IfErr result (λ m. m.offset ≤ (K.kind kind.now).width) }
{
    first_refused(kind, field)?;
    kind.value(field)
}

/// The first byte of a field that may not stand where it stands.
pub fn scan_field<'a, K: FieldKind<'a>>(kind: &K, field: &'a [u8], at: Place) -> Result<(), Fault>
    requires width { length field.now ≡ (K.kind kind.now).width }
    requires room { at.column + (K.kind kind.now).width < 2 ^ 64 }
    ensures { result ≡ answered (placed_at at (refused_from (K.kind kind.now).admits 0 field.now None)) tt }
{
    first_refused(kind, field).map_err(|misfit| at.fault(misfit))
}

/// The value of a field, or what is wrong with it.
pub fn take_field<'a, K: FieldKind<'a>>(
    kind: &K,
    field: &'a [u8],
    at: Place,
) -> Result<K::Value, Fault>
    requires width { length field.now ≡ (K.kind kind.now).width }
    requires room { at.column + (K.kind kind.now).width < 2 ^ 64 }
    ensures { map_ok (K.shown kind.now) result ≡ answered (placed_at at (fault (K.kind kind.now) field.now)) ((K.kind kind.now).value field.now) }
{
    value_of(kind, field).map_err(|misfit| at.fault(misfit))
}

/// What a form's value is refused for.
pub fn judge_field<'a, K: FieldKind<'a>>(kind: &K, value: K::Value, at: Place) -> Result<(), Fault>
    requires room { at.column + (K.kind kind.now).width < 2 ^ 64 }
    ensures { result ≡ answered (placed_at at ((K.kind kind.now).wrong (K.shown kind.now value))) tt }
{
    kind.judge(value).map_err(|misfit| at.fault(misfit))
}
