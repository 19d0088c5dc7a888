//! The width of a field, the bytes that may stand in it, and the one scan that finds the first that may not.
ghost use Rattle.std.specs.Prelude.{◌≡◌, ℕ, ◌+◌, ◌^◌, ◌<◌, Bool, length, None, IfErr};
ghost use Rattle.kinds.specs.Kinds.{refused_from, answered};

use faults::{Cause, Misfit};

/// How wide a field is, unless its kind leaves that to the value (`columns`), and which byte may stand where.
pub trait Shape {
    const WIDTH: usize;

    ghost WIDTH: { ℕ };

    ghost admits: { Self → ℕ → ℕ → Bool };

    /// Whether a byte may stand at a place of the field, counted from 0.
    fn admits(&self, place: usize, byte: u8) -> bool
        ensures { result ≡ admits self.now place byte };
}

// `room` stays a clause: bytes that end at the last number there is are no field's, but a slice and a place may be any.
/// Whether each byte may stand where it stands, the first at place `start` of the field.
pub fn scan<S: Shape>(shape: &S, bytes: &[u8], start: usize) -> Result<(), Misfit>
    requires room { start + length bytes.now < 2 ^ 64 }
    ensures answer { result ≡ answered (refused_from (S.admits shape.now) start bytes.now None) tt }
    ensures within { IfErr result (λ m. m.offset < start + length bytes.now) }
{
    for (i, byte) in bytes.iter().enumerate() {
        if !shape.admits(start + i, *byte) {
            return Err(Misfit {
                cause: Cause::WrongByte,
                offset: start + i,
            });
        }
    }
    Ok(())
}
