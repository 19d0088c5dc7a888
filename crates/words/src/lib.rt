//! A house chosen by words, as on a command line.

#![tactic(auto)]

ghost use Rattle.std.specs.Prelude.{◌≡◌, [], ◌∷◌, map, is_ok, if◌then◌else◌, ◌==◌};
ghost use Rattle.std.specs.List.{position};
ghost use Rattle.std.specs.Option.{option_map};
ghost use Rattle.listed.specs.Listed.{bank_of, banks_of};
ghost use Rattle.words.specs.declared.Unmade.TheVariants.{Refused};
ghost use Rattle.words.specs.Words.{said_after, number_said, before_equals, bank_said, listing, with_said, listing_all, listed_all, house_of, settling, chosen};

use book::book::{Book, Row};
use faults::Fault;
use listed::banks::list_bank;
use std::error::Error;
use std::fmt;

pub mod work;

/// A house and what it is made from, as the words say it.
#[derive(Clone, Copy, PartialEq, Eq, Debug)]
pub enum Choice<'w> {
    Plain,
    /// the rest of the words are bank lines
    Listed,
    /// the settling BSB and account
    Balanced(u64, &'w [u8]),
}

/// Why there is no house.
#[derive(Clone, Copy, PartialEq, Eq, Debug)]
pub enum Unmade {
    /// the words say none
    Words,
    /// what it was to be made from is refused
    Refused(Fault),
}

impl From<Fault> for Unmade {
    ghost from_gives = { λ fault unmade. unmade ≡ Refused fault };

    fn from(fault: Fault) -> Unmade {
        Unmade::Refused(fault)
    }
}

impl fmt::Display for Unmade {
    fn fmt<W: fmt::Write>(&self, f: &mut fmt::Formatter<W>) -> fmt::Result {
        match self {
            Unmade::Words => f.write_str(
                "say a house: plain, or listed 12=BQL 62=CBA .., or balanced 124001 234567890",
            ),
            Unmade::Refused(fault) => write!(f, "the house cannot be made: {fault}"),
        }
    }
}

impl Error for Unmade {}

// Not `parse`, which reads a `str` and takes a `+` before the digits.
// The number with one digit more at its end, if the byte is a digit and the number fits.
fn with_digit(n: u64, byte: u8) -> Option<u64>
    ensures { result ≡ said_after n (byte ∷ []) }
{
    match byte {
        b'0'..=b'9' => n.checked_mul(10)?.checked_add(u64::from(byte - b'0')),
        _ => None,
    }
}

// The number that digits write, if it fits. Not `parse`, as above.
#[tactic(auto, using(crate::proofs::Said::read_out))]
fn number(digits: &[u8]) -> Option<u64>
    ensures { result ≡ number_said digits.now }
{
    if digits.is_empty() {
        return None;
    }
    let mut n = 0;
    for b in digits {
        n = with_digit(n, *b)?;
    }
    Some(n)
}

// What the balanced house is made from: a BSB and an account.
fn settling<'w>(words: &[&'w [u8]]) -> Option<Choice<'w>>
    ensures { option_map house_of result ≡ settling (map (λ x. x.now) words.now) }
{
    let [bsb, account] = words else {
        return None;
    };
    Some(Choice::Balanced(number(bsb)?, account))
}

/// The house that words choose: `plain`, `listed 12=BQL 62=CBA ..` or `balanced 124001 234567890`.
pub fn choose<'w>(words: &[&'w [u8]]) -> Option<Choice<'w>>
    ensures { option_map house_of result ≡ chosen (map (λ x. x.now) words.now) }
{
    let [name, rest @ ..] = words else {
        return None;
    };
    // `==` and no `match` on byte strings, which leaves its clause open.
    let name: &[u8] = name;
    if name == b"plain".as_slice() && rest.is_empty() {
        return Some(Choice::Plain);
    }
    if name == b"listed".as_slice() {
        return Some(Choice::Listed);
    }
    if name == b"balanced".as_slice() {
        return settling(rest);
    }
    None
}

// Where the first `=` of a word stands.
fn equals_sign(word: &[u8]) -> Option<usize>
    ensures { result ≡ position (λ b. b == 61) word.now }
{
    word.iter().position(|byte| *byte == b'=')
}

// The bank that a word says, as 12=BQL.
fn bank_said<'w>(word: &'w [u8]) -> Option<Row<&'w [u8]>>
    ensures { option_map bank_of result ≡ bank_said word.now }
{
    let end = equals_sign(word)?;
    let number = number(&word[..end])?;
    Some(Row {
        number,
        value: &word[end + 1..],
    })
}

// As in `list_bank`, the room stands in a clause of its own, and so below.
/// Puts the bank that a word says on the list. A word that is refused changes nothing.
pub fn list_word<'w>(list: &mut Book<'_, &'w [u8]>, word: &'w [u8]) -> Result<(), Unmade>
    ensures answer { result ≡ listing list.old.held (bank_said word.now) }
    ensures after { banks_of list.new.held ≡ (if is_ok result then with_said (banks_of list.old.held) (bank_said word.now) else banks_of list.old.held) }
    ensures room { list.new.held.room ≡ list.old.held.room }
{
    let bank = bank_said(word).ok_or(Unmade::Words)?;
    list_bank(list, bank)?;
    Ok(())
}

/// Puts the bank that each word says on the list, up to the first word that is refused.
#[tactic(auto, using(crate::proofs::Listing::listing_next, crate::proofs::Listing::listed_next))]
pub fn list_words<'w>(list: &mut Book<'_, &'w [u8]>, words: &[&'w [u8]]) -> Result<(), Unmade>
    ensures answer { result ≡ listing_all list.old.held.room (banks_of list.old.held) (map (λ x. x.now) words.now) }
    ensures after { banks_of list.new.held ≡ listed_all list.old.held.room (banks_of list.old.held) (map (λ x. x.now) words.now) }
    ensures room { list.new.held.room ≡ list.old.held.room }
{
    for word in words {
        list_word(list, word)?;
    }
    Ok(())
}
