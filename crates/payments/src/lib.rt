//! One payment of a file, as its detail record says it.

#![tactic(auto)]

ghost use Rattle.std.specs.Prelude.{◌≡◌, is_ok, IfOk, if◌then◌else◌, OnOk};
ghost use Rattle.kinds.specs.Kinds.{answered, map_ok};
ghost use Rattle.kinds.specs.RoundTrips.{SpellsBack, ReadsBack};
ghost use Rattle.payments.specs.Payments.{payment_of, payment_form, payment_fault, payment_value, payment_wrong, payment_bytes, tax_fault};
ghost use Rattle.payments.specs.Laws.{payment_lawful, payment_in_field};

mod columns;

use crate::columns::DETAIL;
use faults::{Cause, Fault};
use kinds::layout::Layout;
use lines::Line;
use lines::form::{ConstantForm, RecordForm, START, judge_form, read_form, spell_form};

/// A payment by its values. Texts and accounts come without padding.
// Mark and code are numbers and no enums: a form may give any, and what is none of a kind's is refused with its column.
#[derive(Clone, Copy, PartialEq, Eq, Debug)]
pub struct Payment<'a> {
    pub bsb: u64,
    pub account: &'a [u8],
    pub mark: u8,
    pub code: u64,
    pub cents: u64,
    pub title: &'a [u8],
    pub reference: &'a [u8],
    pub trace_bsb: u64,
    pub trace_account: &'a [u8],
    pub remitter: &'a [u8],
    pub tax: u64,
}

impl<'a> RecordForm<'a> for Payment<'a> {
    ghost form = { payment_form };

    ghost shown = { payment_of };

    ghost laws = { payment_lawful };

    fn read_fields(line: Line<'a>) -> Result<Payment<'a>, Fault> {
        let Line { columns, .. } = line;
        let (_, (bsb, (account, (mark, (code, (cents, (title, back))))))) = DETAIL.read(
            columns,
            line.start(),
        )?;
        let (reference, (trace_bsb, (trace_account, (remitter, (tax, _))))) = back;
        Ok(Payment {
            bsb,
            account,
            mark,
            code,
            cents,
            title,
            reference,
            trace_bsb,
            trace_account,
            remitter,
            tax,
        })
    }

    fn spell_fields(&self, out: &mut [u8; 120]) -> Result<(), Fault> {
        let remitter = (self.remitter, (self.tax, ()));
        let back = (
            self.reference,
            (self.trace_bsb, (self.trace_account, remitter)),
        );
        let amount = (self.mark, (self.code, (self.cents, (self.title, back))));
        DETAIL.spell(((), (self.bsb, (self.account, amount))), START, out)
    }

    // Tax stands only beside one of the marks W, X, Y.
    fn judge_together(&self, line: usize) -> Result<(), Fault> {
        if self.tax == 0 {
            return Ok(());
        }
        // as a `char`: the rule speaks of letters
        match self.mark as char {
            'W' | 'X' | 'Y' => Ok(()),
            _ => Err(Cause::TaxUnmarked.at(line, 113)),
        }
    }
}

impl<'a> ConstantForm<'a> for Payment<'a> {
    ghost in_field = { payment_in_field };
}

// Each record has these calls under its own name, with its own definitions in their clauses; what they do is written once.
#[tactic(auto, unfolding(crate::specs::Payments::payment_fault, crate::specs::Payments::payment_value, crate::specs::Payments::payment_wrong, crate::specs::Payments::payment_bytes))]
impl<'a> Payment<'a> {
    /// The payment that the columns of a line say, or the first fault.
    pub fn read(line: Line<'a>) -> Result<Payment<'a>, Fault>
        ensures answer { map_ok payment_of result ≡ answered (payment_fault line.entry.number line.entry.columns.now) (payment_value line.entry.columns.now) }
        ensures spelled_back { IfOk result (λ p. SpellsBack payment_wrong payment_bytes (payment_of p) line.entry.columns.now) }
    {
        read_form(line)
    }

    /// What the form is refused for.
    pub fn judge(&self) -> Result<(), Fault>
        ensures { result ≡ answered (payment_wrong (payment_of self.now)) tt }
    {
        judge_form(self)
    }

    /// Spells the form into a record; a form that is refused leaves it as it was.
    pub fn spell(&self, out: &mut [u8; 120]) -> Result<(), Fault>
        ensures answer { result ≡ answered (payment_wrong (payment_of self.now)) tt }
        ensures after { out.new ≡ (if is_ok result then payment_bytes (payment_of self.now) else out.old) }
        ensures reads_back { OnOk result (ReadsBack payment_fault payment_value (payment_of self.now) out.new) }
    {
        spell_form(self, out)
    }
}
