//! What a search asks of the rows of a partition.
ghost use Rattle.std.specs.Prelude.{◌≡◌, ◌≢◌, ℕ, ◌+◌, ◌<◌, ◌≤◌, List, [], ◌∷◌, ◌++◌, length, take, min, IsSome, IsTrue, OnOk, OnErr};
ghost use Rattle.rp_words.specs.declared.word.Label.{Label};
ghost use Rattle.rp_words.specs.declared.word.End.TheVariants.{Closed};
ghost use Rattle.rp_words.specs.declared.word.Seen.TheVariants.{NotTrue, Open};
ghost use Rattle.rp_words.specs.Numbers.{most_u64};
ghost use Rattle.rp_search.specs.Asked.{Asked, AreBelow};
ghost use Rattle.rp_search.specs.Lasting.{LastsUntil, OfPattern, OpensAlike};

use rp_words::{End, Label, Seen};
use std::alloc::AllocError;

/// The conditions of a pattern's variables over the known rows of a partition.
///
/// The tests are told of each label when it is new and when labels are cut back, so that they may keep totals over
/// the rows mapped so far.
pub trait Tests {
    /// What the tests are of: the rows of a partition, and the conditions. No call changes it.
    ghost Subject: { Type 0 };

    ghost subject: { Self → Self.Subject };

    /// What is asked of a subject: how many rows are known, whether more may come, which variables are tested, and what
    /// the test of the last of some labels says.
    ghost asked: { Self.Subject → Asked };

    /// Whether these labels, from this start row on, are those that were entered: the tests were told of them, and they
    /// aren't cut back. It is a relation, since tests need not keep the labels themselves.
    ghost entered: { Self → ℕ → List Label → Type 0 };

    /// How many calls of `enter` were made. It stays at 2^64 - 1.
    ghost entries: { Self → ℕ };

    /// Whether each refusal lasts for ever, as where each row is judged alone: then they tell so, and name their pattern.
    ghost always: { Self.Subject → Type 0 };

    /// How many rows are known, from row 1 on.
    fn known(&self) -> u64
        ensures { result ≡ (asked (subject self.now)).known };

    /// Whether further rows may come.
    fn end(&self) -> End
        ensures { result ≡ (asked (subject self.now)).end };

    /// The variables below this number are tested.
    fn variables(&self) -> usize
        ensures { result ≡ (asked (subject self.now)).variables };

    /// Whether it depends on its row and label alone that the test of a known row is open: a search over such tests remembers where
    /// it failed, and asks how long its refusals last. Only tests that name their pattern may say so; of others nothing is
    /// remembered.
    fn is_lasting(&self) -> bool
        ensures named { IsTrue result → IsSome (asked (subject self.now)).pattern }
        ensures alike { IsTrue result → OpensAlike (OfPattern (asked (subject self.now)).pattern) (asked (subject self.now)) }
        ensures for_ever { always (subject self.now) → IsTrue result };

    /// The last label is refused. From each start row below the one that is told, it is refused at the same row, whatever is mapped
    /// before it. It costs a look at each start row that is passed, of which there are to be so many at most, this one counted; to tell
    /// the start row itself promises nothing.
    fn refused_until(&self, start: u64, labels: &[Label], most: u64) -> u64
        requires from_one { 1 ≤ start }
        requires some { 0 < length labels.now }
        requires known { start + length labels.now ≤ (asked (subject self.now)).known + 1 }
        requires below { AreBelow (asked (subject self.now)).variables labels.now }
        requires entered { entered self.now start labels.now }
        requires refused { (asked (subject self.now)).outcome start labels.now ≡ NotTrue }
        ensures lasts { LastsUntil (OfPattern (asked (subject self.now)).pattern) (asked (subject self.now)) start labels.now result }
        ensures for_ever { always (subject self.now) → result ≡ most_u64 };

    /// The condition of the last label at its row, where the labels begin at row `start`.
    fn test(&self, start: u64, labels: &[Label]) -> Seen
        requires from_one { 1 ≤ start }
        requires some { 0 < length labels.now }
        requires known { start + length labels.now ≤ (asked (subject self.now)).known + 1 }
        requires below { AreBelow (asked (subject self.now)).variables labels.now }
        requires entered { entered self.now start labels.now }
        ensures { result ≡ (asked (subject self.now)).outcome start labels.now };

    /// The last of the labels is new.
    fn enter(&mut self, start: u64, labels: &[Label]) -> Result<(), AllocError>
        requires from_one { 1 ≤ start }
        requires known { start + length labels.now ≤ (asked (subject self.old)).known + 1 }
        requires below { AreBelow (asked (subject self.old)).variables labels.now }
        requires new { (before : List Label) × (label : Label) ×
            (labels.now ≡ before ++ label ∷ []) × entered self.old start before }
        ensures entered { OnOk result (entered self.new start labels.now) }
        ensures err { OnErr result ((before : List Label) →
            entered self.old start before → entered self.new start before) }
        ensures entries { entries self.new ≡ min (entries self.old + 1) (most_u64) }
        ensures counts { entries self.old ≤ entries self.new }
        ensures subject { subject self.new ≡ subject self.old };

    /// The labels are cut back to the first `depth`. It takes no memory. After a cut to 0 none is entered, from
    /// whichever row the next ones start.
    fn cut(&mut self, depth: usize)
        ensures entered { (start : ℕ) (labels : List Label) →
            entered self.old start labels → depth ≤ length labels → entered self.new start (take depth labels) }
        ensures none { depth ≡ 0 → (start : ℕ) → entered self.new start [] }
        ensures entries { entries self.new ≡ entries self.old }
        ensures subject { subject self.new ≡ subject self.old };

    /// Row numbers leave room for one more.
    ghost few: { (tests : Self) → (asked (subject tests)).known < most_u64 };

    /// Over a closed end each row is decided.
    ghost decided: { (tests : Self) (start : ℕ) (labels : List Label) →
        (asked (subject tests)).end ≡ Closed → (asked (subject tests)).outcome start labels ≢ Open };
}
