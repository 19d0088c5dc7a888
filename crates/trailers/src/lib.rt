//! The record that ends a file: what the details come to.

#![tactic(auto)]

ghost use Rattle.std.specs.Prelude.{◌≡◌, is_ok, IfOk, if◌then◌else◌, OnOk};
ghost use Rattle.kinds.specs.Kinds.{answered};
ghost use Rattle.kinds.specs.RoundTrips.{SpellsBack, ReadsBack};
ghost use Rattle.trailers.specs.Trailers.{trailer_form, trailer_fault, trailer_value, trailer_wrong, trailer_bytes};
ghost use Rattle.trailers.specs.Laws.{trailer_lawful, trailer_in_field};

mod columns;

use crate::columns::TRAILER;
use faults::Fault;
use kinds::layout::Layout;
use lines::Line;
use lines::form::{ConstantForm, RecordForm, START, read_form, spell_form};

/// A trailer by its values: the totals in cents, and the number of details.
#[derive(Clone, Copy, PartialEq, Eq, Debug)]
pub struct Trailer {
    pub net: u64,
    pub credit: u64,
    pub debit: u64,
    pub count: u64,
}

impl<'a> RecordForm<'a> for Trailer {
    ghost form = { trailer_form };

    ghost shown = { λ t. t };

    ghost laws = { trailer_lawful };

    fn read_fields(line: Line<'a>) -> Result<Trailer, Fault> {
        let Line { columns, .. } = line;
        let (_, (net, (credit, (debit, (_, (count, _)))))) = TRAILER.read(columns, line.start())?;
        Ok(Trailer {
            net,
            credit,
            debit,
            count,
        })
    }

    fn spell_fields(&self, out: &mut [u8; 120]) -> Result<(), Fault> {
        let rest = (self.debit, ((), (self.count, ((), ()))));
        TRAILER.spell(((), (self.net, (self.credit, rest))), START, out)
    }

    fn judge_together(&self, _line: usize) -> Result<(), Fault> {
        Ok(())
    }
}

impl<'a> ConstantForm<'a> for Trailer {
    ghost in_field = { trailer_in_field };
}

// Each record has these calls under its own name, with its own definitions in their clauses; what they do is written once.
#[tactic(auto, unfolding(crate::specs::Trailers::trailer_fault, crate::specs::Trailers::trailer_value, crate::specs::Trailers::trailer_wrong, crate::specs::Trailers::trailer_bytes))]
impl Trailer {
    /// The trailer that the columns of a line say, or the first fault.
    pub fn read(line: Line<'_>) -> Result<Trailer, Fault>
        ensures answer { result ≡ answered (trailer_fault line.entry.number line.entry.columns.now) (trailer_value line.entry.columns.now) }
        ensures spelled_back { IfOk result (λ t. SpellsBack trailer_wrong trailer_bytes t line.entry.columns.now) }
    {
        read_form(line)
    }

    /// Spells the form into a record; a form that is refused leaves it as it was.
    pub fn spell(&self, out: &mut [u8; 120]) -> Result<(), Fault>
        ensures answer { result ≡ answered (trailer_wrong self.now) tt }
        ensures after { out.new ≡ (if is_ok result then trailer_bytes self.now else out.old) }
        ensures reads_back { OnOk result (ReadsBack trailer_fault trailer_value self.now out.new) }
    {
        spell_form(self, out)
    }
}
