//! A whole file, under a house.
ghost use Rattle.std.specs.Prelude.{◌≡◌, ◌≤◌, cond, ◌==◌, Some, None, List};
ghost use Rattle.faults.specs.declared.Cause.TheVariants.{WrongTotal};
ghost use Rattle.kinds.specs.Kinds.{answered, map_ok};
ghost use Rattle.faults.specs.Faults.{fault_at};
ghost use Rattle.payments.specs.Payments.{payment_of};
ghost use Rattle.tally.specs.Tallies.{tally_of};
ghost use Rattle.reading.specs.Exact.{Exact};
ghost use Rattle.reading.specs.ByTally.{count_fault, tally_totals, tally_closing};
ghost use Rattle.reading.specs.Reading.{Answers, tally_refused, after_fault, objected, opening, agreed, totals_fault, summary_of, summed, read_of};

use crate::summary::Summary;
use faults::{Cause, Fault};
use headers::Header;
use houses::house::House;
use houses::objection::Objection;
use lines::{Line, Tag, cut_line};
use payments::Payment;
use tally::Tally;
use trailers::Trailer;

// The most details that a file may have are on the lines up to this one.
const LAST_DETAIL: usize = 1_000_000;

// Passes an objection on as a fault.
fn heed(objection: Option<Objection>, line: usize) -> Result<(), Fault>
    ensures { result ≡ answered (objected line objection) tt }
{
    match objection {
        None => Ok(()),
        Some(no) => Err(Cause::HouseRefused(no.reason).at(line, no.column)),
    }
}

// What follows a header that the house agrees to.
fn open<'a, H: House>(file: &'a [u8], house: &H) -> Result<&'a [u8], Fault>
    ensures { map_ok (λ x. x.now) result ≡ opening (H.House.rules house.now) file.now }
{
    let (line, rest) = cut_line(file, 1)?;
    line.expect_header()?;
    let header = Header::read(line)?;
    heed(house.objects_to_header(&header), line.number)?;
    Ok(rest)
}

// The payment of a detail that the house agrees to.
fn agree<'a, H: House>(line: Line<'a>, house: &H) -> Result<Payment<'a>, Fault>
    ensures { map_ok payment_of result ≡ agreed (H.House.rules house.now) line.entry.number line.entry.columns.now }
{
    let payment = Payment::read(line)?;
    heed(house.objects_to_payment(&payment), line.number)?;
    Ok(payment)
}

// A stated total is the one that is due.
fn expect_total(stated: u64, due: u128, line: usize, column: usize) -> Result<(), Fault>
    ensures { result ≡ answered (cond (stated == due) None (Some (fault_at WrongTotal line column))) tt }
{
    if u128::from(stated) != due {
        return Err(Cause::WrongTotal.at(line, column));
    }
    Ok(())
}

// The stated totals are the tally's.
fn judge_totals(stated: Trailer, tally: &Tally, line: usize) -> Result<(), Fault>
    ensures { result ≡ answered (totals_fault line stated (tally_totals tally.now.rows)) tt }
{
    let credit = tally.credit();
    let debit = tally.debit();
    expect_total(stated.net, credit.abs_diff(debit), line, 21)?;
    expect_total(stated.credit, credit, line, 31)?;
    expect_total(stated.debit, debit, line, 41)?;
    expect_total(stated.count, tally.count(), line, 75)
}

// A file has at least one detail.
fn expect_details(tally: &Tally, line: usize) -> Result<(), Fault>
    ensures { result ≡ answered (count_fault line tally.now.rows) tt }
{
    if tally.count() == 0 {
        return Err(Cause::NoDetails.at(line, 1));
    }
    Ok(())
}

// Passes the reason against a tally on as a fault. Not one with `heed`: an objection has a column of its own, a reason none.
fn heed_reason(reason: Option<u8>, line: usize) -> Result<(), Fault>
    ensures { result ≡ answered (tally_refused line reason) tt }
{
    match reason {
        None => Ok(()),
        Some(reason) => Err(Cause::TallyRefused(reason).at(line, 1)),
    }
}

// Nothing follows the trailer.
fn expect_end(after: &[u8], line: usize) -> Result<(), Fault>
    ensures { result ≡ answered (after_fault line after.now) tt }
{
    if !after.is_empty() {
        return Err(Cause::BytesAfter.at(line, 1));
    }
    Ok(())
}

// What a file comes to whose trailer is this line, after payments with this tally.
fn close<'a, H: House>(
    line: Line,
    after: &[u8],
    tally: Tally<'a>,
    house: &H,
) -> Result<Summary<'a>, Fault>
    requires { line.number ≤ 1000001 }
    ensures { map_ok summary_of result ≡ tally_closing (H.House.rules house.now) line.entry.number (tally_of tally.entry) line.entry.columns.now after.now }
{
    let totals = Trailer::read(line)?;
    expect_details(&tally, line.number)?;
    judge_totals(totals, &tally, line.number)?;
    heed_reason(house.objects_to_tally(&tally), line.number)?;
    expect_end(after, line.number + 1)?;
    Ok(Summary { tally, totals })
}

// What a file comes to, or its first fault.
#[tactic(auto, unfolding(crate::specs::Reading::read_of))]
fn summarize<'a, H: House>(file: &'a [u8], house: &H) -> Result<Summary<'a>, Fault>
    ensures { map_ok summary_of result ≡ map_ok summed (read_of (H.House.rules house.now) file.now) }
{
    let mut rest = open(file, house)?;
    let mut tally = Tally::new();
    for number in 2..=LAST_DETAIL + 1 {
        let (line, after) = cut_line(rest, number)?;
        match line.expect_later()? {
            Tag::Trailer => return close(line, after, tally, house),
            Tag::Detail => {
                if number > LAST_DETAIL {
                    return Err(Cause::TooManyDetails.at(number, 1));
                }
                let payment = agree(line, house)?;
                tally.add(&payment);
                rest = after;
            }
        }
    }
    // on the last of these lines stands the trailer, or one detail too many
    unreachable!()
}

/// Reads a file under a house: its tally and totals into the place, or the first fault and the place as it was.
#[tactic(auto, using(crate::proofs::Answered::exact_answer))]
pub fn read<'a, H: House>(file: &'a [u8], house: &H, place: &mut Summary<'a>) -> Result<(), Fault>
    ensures answer { Answers (read_of (H.House.rules house.now) file.now) (summary_of place.old) result (summary_of place.new) }
    ensures exact { Exact (H.House.rules house.now) file.now result (summary_of place.new) }
{
    let summary = summarize(file, house)?;
    *place = summary;
    Ok(())
}
