//! What follows of the definitions of a feed, for the crates above.
ghost use Rattle.std.specs.Prelude.{◌≡◌, ◌↔◌, List, true};
ghost use Rattle.rp_value.specs.declared.value.Value.{Value as Cell};
ghost use Rattle.rp_feed.specs.Answers.{NewRowsAreDue, NewClosesAreDue};
ghost use Rattle.rp_feed.specs.FedLaws.{RowIsAdded, RowsAreDropped, TakenIsAdded, TakenStays, OrderStays, OrderIsKept};
ghost use Rattle.rp_feed.specs.FedLaws.{FrontIsOne, FrontGrows, FrontStays};
ghost use Rattle.rp_feed.specs.Again.{FeedsAreTakenAgain, AgainIsTheSame};

use rp_value::Row;

/// The law of the rows of a feed: which row a number has, whether it was taken and that numbers ascend, once a row is
/// added or rows are dropped.
pub fn law_rows()
    ensures added { RowIsAdded }
    ensures dropped { RowsAreDropped }
    ensures taken { TakenIsAdded }
    ensures stays_taken { TakenStays }
    ensures ordered_after_row { OrderStays }
    ensures ordered_after_drop { OrderIsKept }
{}

/// The law of the front: it is the one number up to which all were taken and the next wasn't; a row more never lowers
/// it, and dropping rows up to it leaves it.
pub fn law_front()
    ensures one { FrontIsOne }
    ensures grows { FrontGrows }
    ensures stays { FrontStays }
{}

/// The law of what is taken as New: a row whose number is in range, not above the close, not dropped, not held and not
/// too far above the front; and a close where there was none, whose count is in range and not below a number that was taken.
pub fn law_new()
    ensures row { NewRowsAreDue }
    ensures close { NewClosesAreDue }
{}

/// The law of what is taken again, as after a restart: a feed that has dropped the same rows takes all rows of another, and
/// then its close, each as New, and holds the same; and one that takes rows in order and a close as New holds just these.
pub fn law_again()
    ensures again { FeedsAreTakenAgain }
    ensures same { AgainIsTheSame }
{}

/// The law that rows are the same, as `take` compares them, exactly where their cells are equal.
pub fn law_same_rows()
    ensures { (left right : List Cell) → (⟦<Row as PartialEq>⟧.eq left right ≡ true) ↔ (left ≡ right) }
{}
