//! A record as one line, its values set apart by tabs.
use fields::date::Date;
use headers::Header;
use payments::Payment;
use reading::records::Record;
use std::fmt;
use std::str::from_utf8;
use trailers::Trailer;

/// What a line of a file says.
#[derive(Clone, Copy, PartialEq, Eq, Debug)]
pub struct RecordLine<'a>(pub Record<'a>);

/// Six digits as 062-000.
#[derive(Clone, Copy, PartialEq, Eq, Debug)]
pub struct Bsb(pub u64);

// The characters of a text or an account. Those that were read are ASCII.
#[derive(Clone, Copy, PartialEq, Eq, Debug)]
struct Characters<'a>(&'a [u8]);

#[derive(Clone, Copy, PartialEq, Eq, Debug)]
struct HeaderLine<'a>(Header<'a>);

#[derive(Clone, Copy, PartialEq, Eq, Debug)]
struct DetailLine<'a>(Payment<'a>);

#[derive(Clone, Copy, PartialEq, Eq, Debug)]
struct TrailerLine(Trailer);

impl fmt::Display for Bsb {
    fn fmt<W: fmt::Write>(&self, f: &mut fmt::Formatter<W>) -> fmt::Result {
        let bank = self.0 / 1000;
        let branch = self.0 % 1000;
        write!(f, "{bank:03}-{branch:03}")
    }
}

impl fmt::Display for Characters<'_> {
    fn fmt<W: fmt::Write>(&self, f: &mut fmt::Formatter<W>) -> fmt::Result {
        f.write_str(from_utf8(self.0).map_err(|_| fmt::Error)?)
    }
}

impl fmt::Display for HeaderLine<'_> {
    fn fmt<W: fmt::Write>(&self, f: &mut fmt::Formatter<W>) -> fmt::Result {
        let header = self.0;
        let bank = Characters(header.bank);
        let user_name = Characters(header.user_name);
        let user_number = header.user_number;
        let description = Characters(header.description);
        let Date { day, month, year } = header.date;
        write!(
            f,
            "header\t{bank}\t{user_name}\t{user_number}\t{description}\t{day:02}/{month:02}/{year:04}"
        )
    }
}

impl fmt::Display for DetailLine<'_> {
    fn fmt<W: fmt::Write>(&self, f: &mut fmt::Formatter<W>) -> fmt::Result {
        let payment = self.0;
        let bsb = Bsb(payment.bsb);
        let account = Characters(payment.account);
        let mark = char::from(payment.mark);
        let code = payment.code;
        let cents = payment.cents;
        let title = Characters(payment.title);
        let reference = Characters(payment.reference);
        write!(
            f,
            "detail\t{bsb}\t{account}\t{mark}\t{code}\t{cents}\t{title}\t{reference}"
        )?;
        let trace_bsb = Bsb(payment.trace_bsb);
        let trace_account = Characters(payment.trace_account);
        let remitter = Characters(payment.remitter);
        let tax = payment.tax;
        write!(f, "\t{trace_bsb}\t{trace_account}\t{remitter}\t{tax}")
    }
}

impl fmt::Display for TrailerLine {
    fn fmt<W: fmt::Write>(&self, f: &mut fmt::Formatter<W>) -> fmt::Result {
        let Trailer {
            net,
            credit,
            debit,
            count,
        } = self.0;
        write!(f, "trailer\t{net}\t{credit}\t{debit}\t{count}")
    }
}

impl fmt::Display for RecordLine<'_> {
    fn fmt<W: fmt::Write>(&self, f: &mut fmt::Formatter<W>) -> fmt::Result {
        match self.0 {
            Record::Header(header) => HeaderLine(header).fmt(f),
            Record::Detail(payment) => DetailLine(payment).fmt(f),
            Record::Trailer(trailer) => TrailerLine(trailer).fmt(f),
        }
    }
}
