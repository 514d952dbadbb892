//! How many rows were entered.
ghost use Rattle.std.specs.Prelude.{◌≡◌, ℕ, ◌+◌, ◌≤◌, min};
ghost use Rattle.rp_words.specs.Numbers.{most_u64};

use std::marker::Model;

/// How many rows testers have entered: the calls of `enter`, refused ones too. It stays at 2^64 - 1.
///
/// Only a tester raises it, and there is no copy of it: who hands it to a tester and doesn't take it back has lost the
/// count. Contracts see it as its number, and no program reads it.
#[derive(Drop)]
pub struct Entries {
    count: u64,
}

impl Model for Entries {
    ghost Value = { ℕ };

    ghost view = { λ e. e.count };
}

impl Entries {
    /// None yet.
    pub fn new() -> Entries
        ensures { result ≡ 0 }
    {
        Entries { count: 0 }
    }

    /// One more.
    pub(crate) fn raise(&mut self)
        ensures one { self.new ≡ min (self.old + 1) (most_u64) }
        ensures grows { self.old ≤ self.new }
    {
        self.count = self.count.saturating_add(1);
    }
}
