//! Characters, left justified, blank filled.
ghost use Rattle.std.specs.Prelude.{◌≡◌, ◌≤◌, length, None, IfOk, refl};
ghost use Rattle.kinds.specs.Kinds.{answered};
ghost use Rattle.fields.specs.Texts.{text_kind, text_end, text_flaw, character};
ghost use Rattle.fields.specs.Laws.Texts.{text_lawful, text_in_field};

use crate::whole::expect;
use faults::{Cause, Misfit};
use kinds::kind::{ConstantKind, FieldKind};
use kinds::shape::{Shape, scan};

/// A text of `W` columns, whose value is the bytes up to its last that is not blank.
#[derive(Clone, Copy, PartialEq, Eq, Debug)]
pub struct Text<const W: usize>;

// Whether the byte is one of the 86 characters of a text.
fn is_character(byte: u8) -> bool
    ensures { result ≡ character byte }
{
    match byte {
        b'"' | b'<' | b'>' | b'\\' | b'`' => false,
        b' '..=b'z' => true,
        _ => false,
    }
}

// Where the text in so many columns ends: where the last column is blank, that of the text one column shorter. It follows
// the rule's own wording, one call a blank, and not the library's `rposition`; a field has at most 32 columns.
fn text_end(field: &[u8], columns: usize) -> usize
    requires { columns ≤ length field.now }
    ensures within { result ≤ columns }
    ensures ends { result ≡ text_end field.now columns }
{
    if columns > 0 && field[columns - 1] == b' ' {
        text_end(field, columns - 1)
    } else {
        columns
    }
}

// The end of a text, unless it is all blank or begins with a blank.
fn proper_end(text: &[u8]) -> Result<usize, Misfit>
    ensures answer { result ≡ answered (text_flaw text.now None) (text_end text.now (length text.now)) }
    ensures within { IfOk result (λ end. end ≤ length text.now) }
{
    let end = text_end(text, text.len());
    expect(end > 0, Cause::Empty)?;
    expect(text[0] != b' ', Cause::StrayBlank)?;
    Ok(end)
}

impl<const W: usize> Shape for Text<W> {
    const WIDTH: usize = W;

    ghost WIDTH = { W };

    ghost admits = { λ _ _ b. character b };

    fn admits(&self, _place: usize, byte: u8) -> bool {
        is_character(byte)
    }
}

impl<'a, const W: usize> FieldKind<'a> for Text<W> {
    type Value = &'a [u8];

    ghost kind = { λ _. text_kind W };

    ghost shown = { λ _ v. v.now };

    ghost shape = { λ _ _ _ _ _. refl };

    ghost laws = { λ _. text_lawful W };

    fn columns(&self) -> usize
        ensures { result ≡ W }
    {
        Self::WIDTH
    }

    fn value(&self, field: &'a [u8]) -> Result<&'a [u8], Misfit> {
        let end = proper_end(field)?;
        Ok(&field[0..end])
    }

    #[tactic(auto, using(crate::proofs::Judged::by_byte, crate::proofs::Judged::past_bytes))]
    fn judge(&self, value: &'a [u8]) -> Result<(), Misfit> {
        expect(value.len() <= W, Cause::TooWide)?;
        scan(self, value, 0)?;
        proper_end(value)?;
        let last = value.len() - 1;
        if value[last] == b' ' {
            return Err(Misfit {
                cause: Cause::StrayBlank,
                offset: last,
            });
        }
        Ok(())
    }

    fn spell(&self, value: &'a [u8], out: &mut [u8]) {
        let (text, blanks) = out.split_at_mut(value.len());
        text.copy_from_slice(value);
        blanks.fill(b' ');
    }
}

impl<'a, const W: usize> ConstantKind<'a> for Text<W> {
    ghost shape = { λ _. (refl, refl) };

    ghost in_field = { λ _. text_in_field W };
}
