//! A day of the calendar.

/// A day of the calendar, or any three numbers that a form gives for one.
#[derive(Clone, Copy, PartialEq, Eq, Debug)]
pub struct Date {
    pub day: u64,
    pub month: u64,
    pub year: u64,
}
