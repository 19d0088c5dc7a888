//! What a field is refused for as a whole: the misfit stands at its first column.
ghost use Rattle.std.specs.Prelude.{◌≡◌};
ghost use Rattle.kinds.specs.Kinds.{answered};
ghost use Rattle.fields.specs.Numbers.{unless};

use faults::{Cause, Misfit};

pub(crate) fn expect(test: bool, cause: Cause) -> Result<(), Misfit>
    ensures { result ≡ answered (unless test cause) tt }
{
    if test {
        Ok(())
    } else {
        Err(Misfit { cause, offset: 0 })
    }
}
