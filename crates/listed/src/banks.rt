//! The bank list: a book whose rows are the names of banks, by their two-digit numbers.
ghost use Rattle.std.specs.Prelude.{◌≡◌, [], ◌∷◌, ◌++◌, is_ok, if◌then◌else◌};
ghost use Rattle.kinds.specs.Kinds.{answered};
ghost use Rattle.std.specs.Option.{option_or};
ghost use Rattle.book.specs.Books.{row_fault};
ghost use Rattle.listed.specs.Listed.{bank_wrong, bank_of, banks_of};

use book::book::{Book, Row};
use faults::{Fault, Place};
use fields::number::{AtLeast, Number};
use fields::text::Text;
use kinds::kind::judge_field;

const NUMBER: Number<2, AtLeast<0>> = Number { numbers: AtLeast };

const NAME: Text<3> = Text;

// What a bank line is refused for, as in a form.
fn judge_bank(bank: Row<&[u8]>) -> Result<(), Fault>
    ensures { result ≡ answered (bank_wrong (bank_of bank.entry)) tt }
{
    judge_field(&NUMBER, bank.number, Place { line: 0, column: 2 })?;
    judge_field(
        &NAME,
        bank.value,
        Place {
            line: 0,
            column: 21,
        },
    )
}

// `after` speaks of the names' bytes, wherever the book keeps them, so the room stands in a clause of its own.
/// One line more at the end of a bank list, a name by its number: judged as a form, and then as any row of a book.
pub fn list_bank<'n>(list: &mut Book<'_, &'n [u8]>, bank: Row<&'n [u8]>) -> Result<(), Fault>
    ensures answer { result ≡ answered (option_or (bank_wrong (bank_of bank.entry)) (row_fault list.old.held bank.entry.number)) tt }
    ensures after { banks_of list.new.held ≡ (if is_ok result then banks_of list.old.held ++ bank_of bank.entry ∷ [] else banks_of list.old.held) }
    ensures room { list.new.held.room ≡ list.old.held.room }
{
    judge_bank(bank)?;
    list.add(bank)
}
