//! The byte order mark that a text may begin with, which is no part of its first field.
ghost use Rattle.std.specs.Prelude.{ℕ, List, [], ◌∷◌, ◌++◌};
ghost use Rattle.rp_quotes.specs.Watching.{HasMark};

/// How much of a text tells whether it begins with a mark, by the bytes that came so far.
#[derive(Clone, Copy, PartialEq, Eq)]
pub(crate) enum Mark {
    /// None came yet.
    Nothing,
    /// The first byte of a mark came, and nothing else.
    First,
    /// The first two bytes of a mark came, and nothing else.
    Second,
    /// It is told.
    Settled,
}

impl Mark {
    /// What is told with one more byte.
    pub(crate) fn behind(self, byte: u8) -> Mark
        ensures { (text : List ℕ) → HasMark self text → HasMark result (text ++ byte ∷ []) }
    {
        match self {
            Mark::Nothing if byte == 0xEF => Mark::First,
            Mark::Nothing => Mark::Settled,
            Mark::First if byte == 0xBB => Mark::Second,
            Mark::First => Mark::Settled,
            Mark::Second => Mark::Settled,
            Mark::Settled => Mark::Settled,
        }
    }
}
