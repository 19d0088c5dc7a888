//! What a line of a file says.
use headers::Header;
use payments::Payment;
use trailers::Trailer;

/// A record whose texts and accounts are parts of the file.
#[derive(Clone, Copy, PartialEq, Eq, Debug)]
pub enum Record<'a> {
    Header(Header<'a>),
    Detail(Payment<'a>),
    Trailer(Trailer),
}
