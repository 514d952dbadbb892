//! What a search tells its tests and asks them: which labels stay, which one is new, and what its row comes to.
ghost use Rattle.std.specs.Prelude.{◌≡◌, ℕ, ◌+◌, ◌<◌, ◌≤◌, ◌↔◌, ◌∷◌, ◌++◌, List, [], length, IsTrue, IfOk, OnOk};
ghost use Rattle.rp_words.specs.declared.word.Label.{Label};
ghost use Rattle.rp_pattern.specs.Choices.{start_of, entered, IsSameWhole};
ghost use Rattle.rp_search.specs.Asked.{AreBelow};
ghost use Rattle.rp_search.specs.Fits.{test_from};
ghost use Rattle.rp_words.specs.declared.word.Seen.TheVariants.{NotTrue};
ghost use Rattle.rp_search.specs.Lasting.{LastsUntil, OfPattern, OpensAlike};
ghost use Rattle.rp_search.specs.Memo.{AreOfPattern};
ghost use Rattle.rp_search.specs.Turned.{AddsLabel, AreCutBack, CanAsk, RisesAtMost, Settled, SettledUntil};
ghost use Rattle.rp_search.specs.Work.{SettledCosts, SettledEver, Sinks};
ghost use Rattle.rp_words.specs.Numbers.{most_u64};

use crate::conditions::Tests;
use rp_pattern::Choices;
use rp_words::Seen;
use std::alloc::AllocError;

/// The tests are cut back to the labels of the choices.
#[inline(always)]
pub(crate) fn cut_back<T: Tests>(choices: &Choices, tests: &mut T)
    requires { AreCutBack (T.entered tests.old (start_of choices.now)) (entered choices.now) }
    ensures subject { T.subject tests.new ≡ T.subject tests.old }
    ensures entries { T.entries tests.new ≡ T.entries tests.old }
    ensures entered { T.entered tests.new (start_of choices.now) (entered choices.now) }
{
    tests.cut(choices.labels().len());
}

/// The tests are cut back to the labels before the last, and that one is entered.
#[inline(always)]
pub(crate) fn enter_row<T: Tests>(choices: &Choices, tests: &mut T) -> Result<(), AllocError>
    requires from_one { 1 ≤ start_of choices.now }
    requires known { start_of choices.now + length (entered choices.now) ≤ (T.asked (T.subject tests.old)).known + 1 }
    requires below { AreBelow (T.asked (T.subject tests.old)).variables (entered choices.now) }
    requires new { AddsLabel (T.entered tests.old (start_of choices.now)) (entered choices.now) }
    ensures subject { T.subject tests.new ≡ T.subject tests.old }
    ensures entries { RisesAtMost 1 (T.entries tests.old) (T.entries tests.new) }
    ensures entered { OnOk result (T.entered tests.new (start_of choices.now) (entered choices.now)) }
{
    tests.cut(choices.labels().len() - 1);
    tests.enter(choices.start(), choices.labels())
}

/// Whether the last label is of a variable that is tested.
pub(crate) fn is_tested<T: Tests>(choices: &Choices, tests: &T) -> bool
    requires { 0 < length (entered choices.now) }
    ensures { (before : List Label) (last : Label) → entered choices.now ≡ before ++ last ∷ [] →
        (IsTrue result ↔ (last.var < (T.asked (T.subject tests.now)).variables)) }
{
    let labels = choices.labels();
    labels[labels.len() - 1].var < tests.variables()
}

/// Below which start row the last label is refused at its row: its own start row where that isn't known, or isn't wanted.
fn lasts<T: Tests>(choices: &Choices, tests: &T, most: u64) -> u64
    requires can_ask { CanAsk choices.now (T.asked (T.subject tests.now)) (T.entered tests.now) }
    requires refused { test_from choices.now (T.asked (T.subject tests.now)) (entered choices.now) ≡ NotTrue }
    ensures lasts { let a = T.asked (T.subject tests.now) in start_of choices.now < result →
        OpensAlike (OfPattern a.pattern) a × LastsUntil (OfPattern a.pattern) a (start_of choices.now) (entered choices.now) result }
    ensures ever { T.always (T.subject tests.now) → 0 < most → most_u64 ≤ result }
{
    if most == 0 {
        return choices.start();
    }
    if tests.is_lasting() {
        return tests.refused_until(choices.start(), choices.labels(), most);
    }
    choices.start()
}

/// Asks the test of the row that the preferred choice maps, and admits the row or gives the choice up where that is
/// decided. It also tells below which start row what was given up fails. So many start rows are looked at, at most, as it is given.
#[inline(always)]
pub(crate) fn settle<T: Tests>(
    choices: &mut Choices,
    tests: &mut T,
    until: &mut u64,
) -> Result<Seen, AllocError>
    requires can_ask { CanAsk choices.old (T.asked (T.subject tests.old)) (T.entered tests.old) }
    requires pattern { AreOfPattern (T.asked (T.subject tests.old)).pattern choices.old }
    ensures same { IsSameWhole choices.old choices.new }
    ensures subject { T.subject tests.new ≡ T.subject tests.old }
    ensures entries { T.entries tests.new ≡ T.entries tests.old }
    ensures entered { OnOk result (T.entered tests.new (start_of choices.new) (entered choices.new)) }
    ensures seen { IfOk result (λ seen.
        seen ≡ test_from choices.old (T.asked (T.subject tests.old)) (entered choices.old)) }
    ensures settled { IfOk result (Settled choices.old choices.new (T.asked (T.subject tests.old))) }
    ensures until { IfOk result (SettledUntil until.new choices.old choices.new (T.asked (T.subject tests.old))) }
    ensures sinks { let a = T.asked (T.subject tests.old) in OnOk result (Sinks choices.old choices.new a.known a.end) }
    ensures costs { IfOk result (SettledCosts choices.old choices.new) }
    ensures ever { T.always (T.subject tests.old) → 0 < until.old → IfOk result (SettledEver until.new) }
{
    match tests.test(choices.start(), choices.labels()) {
        Seen::True => {
            choices.admit()?;
            *until = u64::MAX;
            Ok(Seen::True)
        }
        Seen::NotTrue => {
            *until = lasts(choices, tests, *until);
            choices.give_up();
            cut_back(choices, tests);
            Ok(Seen::NotTrue)
        }
        Seen::Open => Ok(Seen::Open),
    }
}
