//! A partition whose rows have all come.
ghost use Rattle.std.specs.Prelude.{◌-◌, ◌^◌, ◌<◌, length};
ghost use Rattle.rp_words.specs.declared.word.End.TheVariants.{Closed};

use rp_eval::Rows;
use rp_value::{Cells, Row};
use rp_words::End;

/// A partition with all its rows.
#[derive(Drop)]
pub(crate) struct Part {
    pub(crate) key: Cells,
    pub(crate) rows: Vec<Row>,
    ghost few: { length rows.items < 2 ^ 64 - 1 },
}

impl Rows for Part {
    ghost use Rattle.rp_eval.specs.Dropped.{none_below_one};

    ghost known = { λ part. part.rows.items };

    ghost lowest = { λ _. 1 };

    ghost ending = { λ _. Closed };

    fn row(&self, number: u64) -> Option<&Row> {
        if number == 0 {
            return None;
        }
        self.rows.get((number - 1) as usize)
    }

    fn first(&self) -> u64 {
        1
    }

    fn last(&self) -> u64 {
        self.rows.len() as u64
    }

    fn end(&self) -> End {
        End::Closed
    }

    ghost few = { λ part. part.few };

    ghost dropped = { λ part row column low. none_below_one part.rows.items row column low };
}
