//! The columns of a header.
use fields::day::Day;
use fields::fixed::Fixed;
use fields::number::{AtLeast, Number};
use fields::text::Text;

// columns 57 to 120 of a header
type HeaderEnd = (Number<6, AtLeast<0>>, (Text<12>, (Day, (Fixed<40>, ()))));

const END: HeaderEnd = (
    Number { numbers: AtLeast },
    (
        Text,
        (
            Day,
            (
                Fixed {
                    bytes: b"                                        ",
                },
                (),
            ),
        ),
    ),
);

pub(crate) type HeaderLayout = (Fixed<20>, (Text<3>, (Fixed<7>, (Text<26>, HeaderEnd))));

pub(crate) const HEADER: HeaderLayout = (
    Fixed {
        bytes: b"0                 01",
    },
    (Text, (Fixed { bytes: b"       " }, (Text, END))),
);
