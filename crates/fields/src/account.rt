//! An account: digits and hyphens, right justified, blank filled.
ghost use Rattle.std.specs.Prelude.{◌≡◌, ◌==◌, not, position, ◌+◌, ◌^◌, ◌<◌, ◌≤◌, length, refl, IfErr};
ghost use Rattle.kinds.specs.Kinds.{answered};
ghost use Rattle.fields.specs.Texts.{account_kind, account_byte, account_flaw, positive, indent};
ghost use Rattle.fields.specs.Laws.Accounts.{account_lawful, account_in_field};

use crate::whole::expect;
use faults::{Cause, Misfit};
use kinds::kind::{ConstantKind, FieldKind};
use kinds::shape::{Shape, scan};

/// An account of nine columns, with at least one digit 1 to 9; its value is the bytes after the blanks.
#[derive(Clone, Copy, PartialEq, Eq, Debug)]
pub struct Account;

// Where the first byte that is not blank stands.
fn first_solid(field: &[u8]) -> Option<usize>
    ensures { result ≡ position (λ b. not (b == 32)) field.now }
{
    field.iter().position(|byte| *byte != b' ')
}

// How many blanks stand before the account.
fn indent_of(field: &[u8]) -> usize
    ensures within { result ≤ length field.now }
    ensures blanks { result ≡ indent field.now }
{
    first_solid(field).unwrap_or(field.len())
}

// Whether a digit 1 to 9 stands among the bytes.
fn is_positive(account: &[u8]) -> bool
    ensures { result ≡ positive account.now }
{
    account.iter().any(|byte| matches!(*byte, b'1'..=b'9'))
}

// What is wrong with an account whose first byte stands at place `start` of the field. Not `scan`: a blank is admitted there.
// `room` as in `scan`.
fn expect_account(account: &[u8], start: usize) -> Result<(), Misfit>
    requires room { start + length account.now < 2 ^ 64 }
    ensures answer { result ≡ answered (account_flaw start account.now) tt }
    ensures within { IfErr result (λ m. m.offset ≤ start + length account.now) }
{
    expect(is_positive(account), Cause::Empty)?;
    for (i, byte) in account.iter().enumerate() {
        if *byte == b' ' {
            return Err(Misfit {
                cause: Cause::StrayBlank,
                offset: start + i,
            });
        }
    }
    Ok(())
}

impl Shape for Account {
    const WIDTH: usize = 9;

    ghost WIDTH = { 9 };

    ghost admits = { λ _ _ b. account_byte b };

    fn admits(&self, _place: usize, byte: u8) -> bool {
        matches!(byte, b'0'..=b'9' | b'-' | b' ')
    }
}

impl<'a> FieldKind<'a> for Account {
    type Value = &'a [u8];

    ghost kind = { λ _. account_kind };

    ghost shown = { λ _ v. v.now };

    ghost shape = { λ _ _ _ _ _. refl };

    ghost laws = { λ _. account_lawful };

    fn columns(&self) -> usize
        ensures { result ≡ 9 }
    {
        Self::WIDTH
    }

    fn value(&self, field: &'a [u8]) -> Result<&'a [u8], Misfit> {
        let start = indent_of(field);
        let account = &field[start..];
        expect_account(account, start)?;
        Ok(account)
    }

    #[tactic(auto, using(crate::proofs::Judged::by_byte, crate::proofs::Judged::past_bytes))]
    fn judge(&self, value: &'a [u8]) -> Result<(), Misfit> {
        expect(value.len() <= 9, Cause::TooWide)?;
        let start = 9 - value.len();
        scan(self, value, start)?;
        expect_account(value, start)
    }

    fn spell(&self, value: &'a [u8], out: &mut [u8]) {
        let (blanks, account) = out.split_at_mut(9 - value.len());
        blanks.fill(b' ');
        account.copy_from_slice(value);
    }
}

impl<'a> ConstantKind<'a> for Account {
    ghost shape = { λ _. (refl, refl) };

    ghost in_field = { λ _. account_in_field };
}
