//! Rows that go by a number, and the one search for them.
ghost use Rattle.std.specs.Prelude.{◌≡◌, ℕ, ◌≤◌, length};
ghost use Rattle.std.specs.List.Sorted.{IsNonDecreasingBy};
ghost use Rattle.book.specs.Search.{first_not_below};

/// What goes by a number.
pub trait Numbered {
    ghost key: { Self → ℕ };

    fn number(&self) -> u64
        ensures { result ≡ key self.now };
}

/// The first place whose number is not below the wanted one, where the numbers never fall; some place of the rows, or their
/// end, where they fall.
pub fn search<R: Numbered>(rows: &[R], wanted: u64) -> usize
    ensures within { result ≤ length rows.now }
    ensures found { IsNonDecreasingBy R.key rows.now → result ≡ first_not_below R.key wanted rows.now }
{
    rows.partition_point(|row| row.number() < wanted)
}
