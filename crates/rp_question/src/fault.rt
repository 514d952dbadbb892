//! Why there is no question, no rows, or no answer.
ghost use Rattle.std.specs.Prelude.{◌≡◌};
ghost use Rattle.rp_question.specs.declared.fault.AnswerFault.TheVariants.{Input, Output};
ghost use Rattle.rp_question.specs.declared.fault.InputFault.TheVariants.{OutOfMemory};
ghost use Rattle.rp_question.specs.declared.fault.QuestionFault.TheVariants.{Clause, Condition};

use rp_compile::CompileFault;
use rp_filter::FilterFault;
use rp_input::{ColumnsCsvFault, CsvFault};
use rp_objects::ObjectsFault;
use rp_whole::WholeFault;
use std::alloc::AllocError;
use thiserror::Error;

/// Why two texts make no question.
#[derive(Clone, Copy, Debug, Error)]
pub enum QuestionFault {
    /// The text is no clause over the columns.
    #[error("clause: {0}")]
    Clause(CompileFault),
    /// The text is no condition of a row.
    #[error("where: {0}")]
    Condition(FilterFault),
}

impl From<CompileFault> for QuestionFault {
    ghost from_gives = { λ why fault. fault ≡ Clause why };

    fn from(why: CompileFault) -> QuestionFault {
        QuestionFault::Clause(why)
    }
}

impl From<FilterFault> for QuestionFault {
    ghost from_gives = { λ why fault. fault ≡ Condition why };

    fn from(why: FilterFault) -> QuestionFault {
        QuestionFault::Condition(why)
    }
}

/// Why inputs have no rows: the first reason, in the order of the inputs and of the text of each.
#[derive(Clone, Copy, Debug, Error)]
pub enum InputFault {
    /// An input can't be read.
    #[error("device: read")]
    Unread,
    /// An input is no rows of a table.
    #[error("csv: {0}")]
    Table(CsvFault),
    /// An input is no rows of the columns of a CSV.
    #[error("csv: {0}")]
    Columns(ColumnsCsvFault),
    /// An input is no rows of the columns of objects.
    #[error("json: {0}")]
    Objects(ObjectsFault),
    /// No memory was left. It says nothing of the inputs.
    #[error("out of memory")]
    OutOfMemory,
}

impl From<AllocError> for InputFault {
    ghost from_gives = { λ _ fault. fault ≡ OutOfMemory };

    fn from(_error: AllocError) -> InputFault {
        InputFault::OutOfMemory
    }
}

/// Why an answer ended early.
#[derive(Clone, Copy, Debug, Error)]
pub enum AnswerFault {
    /// The inputs have no rows. Nothing was written.
    #[error("{0}")]
    Input(InputFault),
    /// The answer couldn't be written, or no memory was left for it.
    #[error("{0}")]
    Output(WholeFault),
}

impl From<InputFault> for AnswerFault {
    ghost from_gives = { λ why fault. fault ≡ Input why };

    fn from(why: InputFault) -> AnswerFault {
        AnswerFault::Input(why)
    }
}

impl From<WholeFault> for AnswerFault {
    ghost from_gives = { λ why fault. fault ≡ Output why };

    fn from(why: WholeFault) -> AnswerFault {
        AnswerFault::Output(why)
    }
}
