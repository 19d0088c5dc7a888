//! The columns of a detail.
use fields::account::Account;
use fields::bsb::Bsb;
use fields::fixed::Fixed;
use fields::mark::Mark;
use fields::number::{AtLeast, Codes, Number};
use fields::text::Text;

// columns 63 to 120 of a detail
type DetailBack = (
    Text<18>,
    (Bsb, (Account, (Text<16>, (Number<8, AtLeast<0>>, ())))),
);

const BACK: DetailBack = (
    Text,
    (Bsb, (Account, (Text, (Number { numbers: AtLeast }, ())))),
);

// columns 18 to 120
type DetailAmount = (
    Mark,
    (
        Number<2, Codes>,
        (Number<10, AtLeast<1>>, (Text<32>, DetailBack)),
    ),
);

const AMOUNT: DetailAmount = (
    Mark,
    (
        Number { numbers: Codes },
        (Number { numbers: AtLeast }, (Text, BACK)),
    ),
);

pub(crate) type DetailLayout = (Fixed<1>, (Bsb, (Account, DetailAmount)));

pub(crate) const DETAIL: DetailLayout = (Fixed { bytes: b"1" }, (Bsb, (Account, AMOUNT)));
