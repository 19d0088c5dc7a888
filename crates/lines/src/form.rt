//! A record by its values, and what is written once for all records: reading, judging and spelling one.
ghost use Rattle.std.specs.Prelude.{◌≡◌, is_ok, IfOk, if◌then◌else◌, OnOk};
ghost use Rattle.kinds.specs.Kinds.{answered, map_ok};
ghost use Rattle.kinds.specs.Layouts.{AllInField, start, first_fault, form_fault};
ghost use Rattle.kinds.specs.Forms.{Form, LawfulForm, record_value, record_fault, record_wrong, record_bytes};
ghost use Rattle.kinds.specs.RoundTrips.{SpellsBack, ReadsBack};

use crate::Line;
use faults::{Fault, Place};

/// Where a form begins: it stands on no line.
pub const START: Place = Place { line: 0, column: 1 };

/// A record by its values: a header, a payment or a trailer.
pub trait RecordForm<'a>: Copy {
    ghost form: { Form };

    // how a value of the program stands for one of the definition
    ghost shown: { Self → form.Value };

    /// The values that the columns say, before they are judged together, or the first fault of a field.
    fn read_fields(line: Line<'a>) -> Result<Self, Fault>
        ensures { map_ok shown result ≡ answered (first_fault form.row (start line.entry.number) line.entry.columns.now) (record_value form line.entry.columns.now) };

    /// Writes the values, each in its columns, up to the first that is refused.
    fn spell_fields(&self, out: &mut [u8; 120]) -> Result<(), Fault>
        ensures answer { result ≡ answered (form_fault form.row (start 0) (form.fields (shown self.now))) tt }
        ensures after { OnOk result (out.new ≡ record_bytes form (shown self.now)) };

    // No default: what it answers depends on the form's `flaw`.
    /// What is wrong with proper values taken together, on a line.
    fn judge_together(&self, line: usize) -> Result<(), Fault>
        ensures { result ≡ answered (form.flaw line (shown self.now)) tt };

    ghost laws: { LawfulForm form };
}

/// A record each of whose kinds keeps `InField`, as those of a header, a payment and a trailer do.
pub trait ConstantForm<'a>: RecordForm<'a> {
    // what is wrong with each field stands in it, or right behind it
    ghost in_field: { AllInField Self.form.row };
}

/// The form that the columns of a line say, or the first fault.
pub fn read_form<'a, F: RecordForm<'a>>(line: Line<'a>) -> Result<F, Fault>
    ensures answer { map_ok F.shown result ≡ answered (record_fault F.form line.entry.number line.entry.columns.now) (record_value F.form line.entry.columns.now) }
    ensures spelled_back { IfOk result (λ v. SpellsBack (record_wrong F.form) (record_bytes F.form) (F.shown v) line.entry.columns.now) }
{
    let form = F::read_fields(line)?;
    form.judge_together(line.number)?;
    Ok(form)
}

/// What the form is refused for.
pub fn judge_form<'a, F: RecordForm<'a>>(form: &F) -> Result<(), Fault>
    ensures { result ≡ answered (record_wrong F.form (F.shown form.now)) tt }
{
    spell_form(form, &mut [0; 120])
}

/// Spells the form into a record; a form that is refused leaves it as it was.
pub fn spell_form<'a, F: RecordForm<'a>>(form: &F, out: &mut [u8; 120]) -> Result<(), Fault>
    ensures answer { result ≡ answered (record_wrong F.form (F.shown form.now)) tt }
    ensures after { out.new ≡ (if is_ok result then record_bytes F.form (F.shown form.now) else out.old) }
    ensures reads_back { OnOk result (ReadsBack (record_fault F.form) (record_value F.form) (F.shown form.now) out.new) }
{
    let mut record = *out;
    form.spell_fields(&mut record)?;
    form.judge_together(0)?;
    *out = record;
    Ok(())
}
