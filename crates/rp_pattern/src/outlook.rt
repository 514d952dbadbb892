//! What would follow a row: whether any word does. Which rows it would map is not kept.
//!
//! No row is tested, so from a place the same follows, however it was come to. A choice that comes to one where another
//! gave way before, behind as many labels, is given up: if a word follows from there, another choice that is left has
//! one too.
ghost use Rattle.std.specs.Prelude.{◌≡◌, ℕ, ◌+◌, ◌-◌, ◌^◌, ◌<◌, ◌≤◌, IfOk, IfSome, IsTrue, drop, length};
ghost use Rattle.rp_words.specs.declared.word.End.{End};
ghost use Rattle.rp_pattern.specs.Rests.{HasDepth, rises};
ghost use Rattle.rp_pattern.specs.Visited.{AreServed};
ghost use Rattle.rp_pattern.specs.Ways.{IsAtWayPlace, kept_of, stack_of};
ghost use Rattle.rp_words.specs.Numbers.{most_u64};

use crate::machine::split::Expansion;
use crate::visited::Visited;
use crate::ways::Ways;
use rp_words::End;
use std::alloc::{AllocError, Global};

/// What an outlook came to when its preferred choice was taken up.
#[derive(Clone, Copy, Debug, PartialEq, Eq)]
pub enum Sight {
    /// The choice was replaced by those that it stands for, or by what comes after the row that it maps. Or it was given
    /// up, since another that is left has a word wherever it has one.
    Further,
    /// A word follows: it is full, or runs into the row after the last known one. The choice stays.
    Word,
    /// No word follows.
    Nothing,
}

/// The words that would follow a row, in preferment order. No more is told of them than whether there is one.
pub struct Outlook {
    start: u64,
    ways: Ways,
    /// The places of the choices that gave way to others.
    visited: Visited,
    ghost starts: { start < 2 ^ 64 },
    ghost within: { IsTrue (rises (most_u64 - start) (stack_of ways)) },
    ghost served: { AreServed visited (kept_of ways) start (stack_of ways) },
}

/// It is let go of by a call, wherever it is held.
impl Drop for Outlook {
    fn drop(self) {
        let Outlook {
            start: _,
            ways: _,
            visited: _,
        } = self;
    }
}

impl Outlook {
    ghost use Rattle.rp_pattern.specs.Outlooks.{words_ahead, turns_ahead, SeenAs};

    /// What these choices give from a row on, if none has labels before it.
    pub(crate) fn at(alloc: Global, row: u64, ways: Ways) -> Outlook
        requires { IsTrue (rises 0 (stack_of ways)) }
        ensures start { result.start ≡ row }
        ensures ways { result.ways ≡ ways }
    {
        Outlook {
            start: row,
            ways,
            visited: Visited::new(alloc),
        }
    }

    /// Takes up the preferred choice, over the rows 1 to n and that end. Each row is mapped, since none is tested. Where
    /// memory is refused, nothing is said of the outlook: drop it.
    pub fn take_up(&mut self, n: u64, end: End) -> Result<Sight, AllocError>
        requires { n < most_u64 }
        ensures { IfOk result (SeenAs self.old self.new n end) }
    {
        let Some(depth) = self.ways.depth() else {
            return Ok(Sight::Nothing);
        };
        self.visited.go_on(n, end);
        let place = self.ways.place();
        if self.visited.has(place, depth) {
            self.ways.drop_top();
            return Ok(Sight::Further);
        }
        self.expand(depth, place, n, end)
    }

    /// Takes up the preferred choice, behind so many labels and at that place, which wasn't come to before.
    fn expand(
        &mut self,
        depth: usize,
        place: Option<u32>,
        n: u64,
        end: End,
    ) -> Result<Sight, AllocError>
        requires rows { n < most_u64 }
        requires depth { HasDepth depth (stack_of self.old.ways) (drop 1 (stack_of self.old.ways)) }
        requires place { IfSome place (λ p. IsAtWayPlace p (kept_of self.old.ways) (stack_of self.old.ways)) }
        requires known { self.old.visited.known ≡ n }
        requires end { self.old.visited.end ≡ end }
        ensures seen { IfOk result (SeenAs self.old self.new n end) }
        ensures some { IfOk result (λ sight. sight ≡ Sight.Nothing → ⊥) }
    {
        let row = self.start + depth as u64;
        let expansion = match self.ways.take_up(row, n, end) {
            Ok(expansion) => expansion,
            Err(refused) => {
                self.visited.clear();
                return Err(refused);
            }
        };
        match expansion {
            Expansion::Full => Ok(Sight::Word),
            Expansion::Open => Ok(Sight::Word),
            Expansion::Row(_) => match self.ways.follow(depth + 1, row + 1) {
                Ok(()) => Ok(Sight::Further),
                Err(refused) => {
                    self.visited.clear();
                    Err(refused)
                }
            },
            Expansion::Split => {
                self.visited.note(place, depth);
                Ok(Sight::Further)
            }
        }
    }
}
