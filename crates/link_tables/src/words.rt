//! The word of a link, and where each word of a table stands.
ghost use Rattle.std.specs.Prelude.{◌≡◌, ◌≢◌, ◌+◌, ◌*◌, ◌^◌, ◌<◌, ◌≤◌};
ghost use Rattle.link_tables.specs.Seats.{number_in, word_at};

/// What the word of a link says.
#[derive(Clone, Copy, PartialEq, Eq)]
pub enum LinkWord {
    /// The link is at home, and nothing is on it.
    Bare,
    /// The link is at home, and something may be on it.
    Laden,
    /// A seat has the link.
    Out,
}

impl LinkWord {
    /// Returns the number that stands in the table.
    pub(crate) fn number(self) -> u64
        ensures { result ≡ number_in self }
    {
        match self {
            LinkWord::Bare => 0,
            LinkWord::Out => 1,
            LinkWord::Laden => 2,
        }
    }

    /// Returns what a number in the table says.
    pub(crate) fn of(number: u64) -> LinkWord
        requires { number ≤ 2 }
        ensures { number_in result ≡ number }
    {
        match number {
            0 => LinkWord::Bare,
            1 => LinkWord::Out,
            _ => LinkWord::Laden,
        }
    }
}

/// Words are 64 bytes apart, so no two of them lie on one line of the cache.
const STRIDE: usize = 8;

/// Returns where the word of a link stands. The word of tickets follows those of the links, and
/// then comes the word of the halt.
pub(crate) fn word_place(link: usize) -> usize
    requires { link < 2 ^ 32 }
    ensures { result ≡ word_at link }
{
    link * STRIDE
}
