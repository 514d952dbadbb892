//! All rows of a partition, in a list.
ghost use Rattle.std.specs.Prelude.{◌-◌, ◌^◌, ◌<◌, length};

use crate::Rows;
use rp_value::Row;
use rp_words::End;

/// All rows of a partition, of which none was dropped: the first of the list is row 1.
///
/// It is for those who have a partition's rows at hand, as one that was read whole. Rows may be added while the partition
/// is open.
#[derive(Drop)]
pub struct AllRows {
    /// The rows in order.
    pub rows: Vec<Row>,
    /// Whether further rows may come.
    pub end: End,
    ghost few: { length rows.items < 2 ^ 64 - 1 },
}

impl Rows for AllRows {
    ghost use Rattle.rp_eval.specs.Dropped.{none_below_one};

    ghost known = { λ a. a.rows.items };

    ghost lowest = { λ _. 1 };

    ghost ending = { λ a. a.end };

    fn row(&self, number: u64) -> Option<&Row> {
        if number == 0 {
            return None;
        }
        self.rows.get((number - 1) as usize)
    }

    fn first(&self) -> u64 {
        1
    }

    fn last(&self) -> u64 {
        self.rows.len() as u64
    }

    fn end(&self) -> End {
        self.end
    }

    ghost few = { λ a. a.few };

    ghost dropped = { λ a row column low. none_below_one a.rows.items row column low };
}
