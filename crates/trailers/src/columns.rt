//! The columns of a trailer.
use fields::fixed::Fixed;
use fields::number::{AtLeast, Number};

// columns 51 to 120 of a trailer
type TrailerEnd = (Fixed<24>, (Number<6, AtLeast<0>>, (Fixed<40>, ())));

const END: TrailerEnd = (
    Fixed {
        bytes: b"                        ",
    },
    (
        Number { numbers: AtLeast },
        (
            Fixed {
                bytes: b"                                        ",
            },
            (),
        ),
    ),
);

// a total in cents
type Total = Number<10, AtLeast<0>>;

const TOTAL: Total = Number { numbers: AtLeast };

pub(crate) type TrailerLayout = (Fixed<20>, (Total, (Total, (Total, TrailerEnd))));

pub(crate) const TRAILER: TrailerLayout = (
    Fixed {
        bytes: b"7999-999            ",
    },
    (TOTAL, (TOTAL, (TOTAL, END))),
);
