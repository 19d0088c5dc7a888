//! The record that begins a file: who pays, for what, and on which day.

#![tactic(auto)]

ghost use Rattle.std.specs.Prelude.{◌≡◌, is_ok, IfOk, if◌then◌else◌, OnOk};
ghost use Rattle.kinds.specs.Kinds.{answered, map_ok};
ghost use Rattle.kinds.specs.RoundTrips.{SpellsBack, ReadsBack};
ghost use Rattle.headers.specs.Headers.{header_of, header_form, header_fault, header_value, header_wrong, header_bytes};
ghost use Rattle.headers.specs.Laws.{header_lawful, header_in_field};

mod columns;

use crate::columns::HEADER;
use faults::Fault;
use fields::date::Date;
use kinds::layout::Layout;
use lines::Line;
use lines::form::{ConstantForm, RecordForm, START, judge_form, read_form, spell_form};

/// A header by its values. Texts come without padding.
#[derive(Clone, Copy, PartialEq, Eq, Debug)]
pub struct Header<'a> {
    pub bank: &'a [u8],
    pub user_name: &'a [u8],
    pub user_number: u64,
    pub description: &'a [u8],
    pub date: Date,
}

impl<'a> RecordForm<'a> for Header<'a> {
    ghost form = { header_form };

    ghost shown = { header_of };

    ghost laws = { header_lawful };

    fn read_fields(line: Line<'a>) -> Result<Header<'a>, Fault> {
        let Line { columns, .. } = line;
        let (_, (bank, (_, (user_name, (user_number, (description, (date, _))))))) = HEADER.read(
            columns,
            line.start(),
        )?;
        Ok(Header {
            bank,
            user_name,
            user_number,
            description,
            date,
        })
    }

    fn spell_fields(&self, out: &mut [u8; 120]) -> Result<(), Fault> {
        let rest = (self.user_number, (self.description, (self.date, ((), ()))));
        HEADER.spell(((), (self.bank, ((), (self.user_name, rest)))), START, out)
    }

    fn judge_together(&self, _line: usize) -> Result<(), Fault> {
        Ok(())
    }
}

impl<'a> ConstantForm<'a> for Header<'a> {
    ghost in_field = { header_in_field };
}

// Each record has these calls under its own name, with its own definitions in their clauses; what they do is written once.
#[tactic(auto, unfolding(crate::specs::Headers::header_fault, crate::specs::Headers::header_value, crate::specs::Headers::header_wrong, crate::specs::Headers::header_bytes))]
impl<'a> Header<'a> {
    /// The header that the columns of a line say, or the first fault.
    pub fn read(line: Line<'a>) -> Result<Header<'a>, Fault>
        ensures answer { map_ok header_of result ≡ answered (header_fault line.entry.number line.entry.columns.now) (header_value line.entry.columns.now) }
        ensures spelled_back { IfOk result (λ h. SpellsBack header_wrong header_bytes (header_of h) line.entry.columns.now) }
    {
        read_form(line)
    }

    /// What the form is refused for.
    pub fn judge(&self) -> Result<(), Fault>
        ensures { result ≡ answered (header_wrong (header_of self.now)) tt }
    {
        judge_form(self)
    }

    /// Spells the form into a record; a form that is refused leaves it as it was.
    pub fn spell(&self, out: &mut [u8; 120]) -> Result<(), Fault>
        ensures answer { result ≡ answered (header_wrong (header_of self.now)) tt }
        ensures after { out.new ≡ (if is_ok result then header_bytes (header_of self.now) else out.old) }
        ensures reads_back { OnOk result (ReadsBack header_fault header_value (header_of self.now) out.new) }
    {
        spell_form(self, out)
    }
}
