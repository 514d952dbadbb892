//! A search that is run to its end.
ghost use Rattle.std.specs.Prelude.{◌≡◌, IfOk, MatchBool};
ghost use Rattle.rp_words.specs.declared.word.End.TheVariants.{Closed};
ghost use Rattle.rp_search.specs.Found.{Match, NoMatch};
ghost use Rattle.rp_search.specs.Search.{CanRun, IsForSamePattern, found_by, labels_of_search};

use rp_search::{Outcome, Search, Steps, Tests};
use std::alloc::AllocError;
use std::sync::ledger::Ledger;

/// How many turns one run of a search takes at most.
pub const BUDGET: u32 = 100_000;

/// Whether there is a match, whose labels the search then has.
pub(crate) fn find<T: Tests, L: Ledger>(
    search: &mut Search,
    tests: &mut T,
    steps: &mut Steps<L>,
) -> Result<bool, AllocError>
    requires closed { (T.asked (T.subject tests.old)).end ≡ Closed }
    requires can_run { CanRun search.old (T.asked (T.subject tests.old)) (T.entered tests.old) }
    ensures pattern { IsForSamePattern search.old search.new }
    ensures found { IfOk result (λ is_match. MatchBool is_match
        (found_by search.old (T.asked (T.subject tests.old)) ≡ Match (labels_of_search search.new))
        (found_by search.old (T.asked (T.subject tests.old)) ≡ NoMatch)) }
{
    loop {
        match search.run(tests, BUDGET, steps)? {
            Outcome::Match => return Ok(true),
            Outcome::NoMatch => return Ok(false),
            Outcome::Waits => unreachable!(),
            Outcome::Paused => {}
        }
    }
}
