// Under the bound `ConstantKind` a caller says the width of a field as `WIDTH`, and has what `FieldKind` gives: the first four
// functions need no proof of their own. A kind of one's own, `Stop`, is written as an `OwnKind` and goes by them too.
ghost use Rattle.std.specs.Prelude.{◌≡◌, ◌+◌, ◌^◌, ◌<◌, [], ◌∷◌, length, None, refl};
ghost use Rattle.kinds.specs.Kinds.{AllFrom, fault, answered, placed_at, map_ok};
ghost use Rattle.fields.specs.Texts.{fixed_kind};
ghost use Rattle.fields.specs.Laws.Fixed.{fixed_lawful, fixed_in_field};

use crate::bsb::Bsb;
use crate::text::Text;
use faults::{Cause, Fault, Misfit, Place};
use kinds::kind::{ConstantKind, FieldKind, judge_field, take_field};
use kinds::layout::Layout;
use kinds::own::OwnKind;
use kinds::shape::Shape;

fn take<'a, K: ConstantKind<'a>>(kind: &K, field: &'a [u8], at: Place) -> Result<K::Value, Fault>
    requires width { length field.now ≡ K.WIDTH }
    requires room { at.column + K.WIDTH < 2 ^ 64 }
    ensures { map_ok (K.shown kind.now) result ≡ answered (placed_at at (fault (K.kind kind.now) field.now)) ((K.kind kind.now).value field.now) }
{
    take_field(kind, field, at)
}

fn judge<'a, K: ConstantKind<'a>>(kind: &K, value: K::Value, at: Place) -> Result<(), Fault>
    requires room { at.column + K.WIDTH < 2 ^ 64 }
    ensures { result ≡ answered (placed_at at ((K.kind kind.now).wrong (K.shown kind.now value))) tt }
{
    judge_field(kind, value, at)
}

fn value<'a, K: ConstantKind<'a>>(kind: &K, field: &'a [u8]) -> Result<K::Value, Misfit>
    requires width { length field.now ≡ K.WIDTH }
    requires admitted { AllFrom (K.kind kind.now).admits 0 field.now }
    ensures { map_ok (K.shown kind.now) result ≡ answered ((K.kind kind.now).flaw field.now) ((K.kind kind.now).value field.now) }
{
    kind.value(field)
}

fn spell<'a, K: ConstantKind<'a>>(kind: &K, value: K::Value, out: &mut [u8])
    requires width { length out.old ≡ K.WIDTH }
    requires admitted { (K.kind kind.now).wrong (K.shown kind.now value) ≡ None }
    ensures { out.new ≡ (K.kind kind.now).spell (K.shown kind.now value) }
{
    kind.spell(value, out)
}

/// A semicolon.
#[derive(Clone, Copy, PartialEq, Eq, Debug)]
struct Stop;

impl Shape for Stop {
    const WIDTH: usize = 1;

    ghost WIDTH = { 1 };

    ghost admits = { λ _. (fixed_kind (59 ∷ [])).admits };

    fn admits(&self, place: usize, byte: u8) -> bool {
        place == 0 && byte == b';'
    }
}

impl<'a> OwnKind<'a> for Stop {
    type Value = ();

    ghost kind = { λ _. fixed_kind (59 ∷ []) };

    ghost shown = { λ _ v. v };

    ghost shape = { λ _. (refl, refl) };

    ghost laws = { λ _. fixed_lawful (59 ∷ []) };

    ghost in_field = { λ _. fixed_in_field (59 ∷ []) };

    fn value(&self, _field: &'a [u8]) -> Result<(), Misfit> {
        Ok(())
    }

    fn judge(&self, _value: ()) -> Result<(), Misfit> {
        Ok(())
    }

    fn spell(&self, _value: (), out: &mut [u8]) {
        out[0] = b';';
    }
}

#[test]
fn fields_of_constant_width(rt: HostRuntime) {
    let at = Place { line: 3, column: 9 };
    assert_eq!(rt; take(&Bsb, b"062-004", at), Ok(62_004));
    assert_eq!(rt; take(&Bsb, b"062 004", at), Err(Cause::WrongByte.at(3, 12)));
    assert_eq!(rt; judge(&Bsb, 999_999, at), Ok(()));
    assert_eq!(rt; judge(&Bsb, 1_000_000, at), Err(Cause::TooWide.at(3, 9)));
    assert_eq!(rt;
        judge(&Text::<4>, b"A <B", at),
        Err(Cause::WrongByte.at(3, 11))
    );
    assert_eq!(rt; value(&Bsb, b"062-004"), Ok(62_004));
    let mut out = *b"       ";
    spell(&Bsb, 62_004, &mut out);
    assert_eq!(rt; out, *b"062-004");
}

#[test]
fn a_kind_of_ones_own(rt: HostRuntime) {
    let at = Place { line: 3, column: 9 };
    assert_eq!(rt; take(&Stop, b";", at), Ok(()));
    assert_eq!(rt; take(&Stop, b",", at), Err(Cause::WrongByte.at(3, 9)));
    assert_eq!(rt; judge(&Stop, (), at), Ok(()));
    let row = (Bsb, (Stop, ()));
    assert_eq!(rt; row.read(b"062-004;", at), Ok((62_004, ((), ()))));
    assert_eq!(rt; row.read(b"062-004:", at), Err(Cause::WrongByte.at(3, 16)));
    let mut out = *b"        ";
    assert_eq!(rt; row.spell((62_004, ((), ())), at, &mut out), Ok(()));
    assert_eq!(rt; out, *b"062-004;");
}
