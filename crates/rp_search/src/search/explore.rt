//! What would follow a row whose test is open: it decides whether there is anything to wait for.
//!
//! It is looked for by an outlook, a stack of choices that keeps no labels: which word follows doesn't matter, only whether
//! one does. Where none does, the choice that maps the row is given up and the next one taken up in the same turn, since
//! the count of turns leaves none for finding that nothing is left.
ghost use Rattle.std.specs.Prelude.{◌≡◌, None, IfOk, OnOk};

use super::{Outcome, Search};
use crate::asking::cut_back;
use crate::conditions::Tests;
use rp_pattern::{Outlook, Sight};
use std::alloc::AllocError;

#[tactic(auto, unfolding(crate::specs::Search::start_of_search, crate::specs::Search::labels_of_search, crate::specs::Search::words_from, crate::specs::Search::turns_from, crate::specs::Fits::left_by, crate::specs::Fits::ChoicesStand, crate::specs::Fits::LabelsStand, crate::specs::Fits::LabelsBelow, crate::specs::Fits::MemoStands, crate::specs::Fits::MarksStand))]
impl Search {
    ghost use Rattle.rp_search.specs.Search.{IsSameSearch};
    ghost use Rattle.rp_search.specs.Turned.{CanTurn, IsRunning, RisesAtMost, TookTurn, exploring};
    ghost use Rattle.rp_search.specs.Work.{added_by};

    /// Takes up what would follow a row whose test is open, if one is, and else the preferred choice.
    #[inline(never)]
    pub(super) fn go_further<T: Tests>(
        &mut self,
        remembers: bool,
        tests: &mut T,
    ) -> Result<Outcome, AllocError>
        requires can_turn { CanTurn self.old (T.asked (T.subject tests.old)) (T.entered tests.old) }

        ensures same { IsSameSearch self.old self.new }
        ensures subject { T.subject tests.new ≡ T.subject tests.old }
        ensures entries { RisesAtMost 1 (T.entries tests.old) (T.entries tests.new) }
        ensures running { OnOk result (IsRunning self.new (T.asked (T.subject tests.old)) (T.entered tests.new)) }
        ensures took { let s = T.subject tests.old in
            IfOk result (TookTurn (added_by remembers) (T.always s) (T.always s) self.old self.new (T.asked s)) }
    {
        match self.outlook.take() {
            None => self.take_up(remembers, tests),
            Some(outlook) => self.explore(outlook, remembers, tests),
        }
    }

    /// Takes up what would follow a row whose test is open. There each row is taken without a test. Where nothing would
    /// follow it, the choice that maps it is given up, and the next one is taken up.
    fn explore<T: Tests>(
        &mut self,
        mut outlook: Outlook,
        remembers: bool,
        tests: &mut T,
    ) -> Result<Outcome, AllocError>
        requires none { self.old.outlook ≡ None }
        requires can_turn { CanTurn (exploring self.old outlook) (T.asked (T.subject tests.old)) (T.entered tests.old) }

        ensures same { IsSameSearch self.old self.new }
        ensures subject { T.subject tests.new ≡ T.subject tests.old }
        ensures entries { RisesAtMost 1 (T.entries tests.old) (T.entries tests.new) }
        ensures running { OnOk result (IsRunning self.new (T.asked (T.subject tests.old)) (T.entered tests.new)) }
        ensures took { let s = T.subject tests.old in
            IfOk result (TookTurn (added_by remembers) (T.always s) (T.always s) (exploring self.old outlook) self.new (T.asked s)) }
    {
        match outlook.take_up(tests.known(), tests.end())? {
            Sight::Further => {
                self.outlook = Some(outlook);
                Ok(Outcome::Paused)
            }
            Sight::Word => {
                self.outlook = Some(outlook);
                Ok(Outcome::Waits)
            }
            Sight::Nothing => {
                self.choices.give_up();
                cut_back(&self.choices, tests);
                self.memo.note_failures(u64::MAX, &self.choices, tests);
                self.take_up(remembers, tests)
            }
        }
    }
}
