//! Laws of whole answers: rows fit their table, names head the cells, and limits leave answers whole.
//! A call does nothing, and its caller may then use them.
ghost use Rattle.rp_whole.specs.Fitting.{PartsFit, PartsFitColumns};
ghost use Rattle.rp_whole.specs.Limits.{HaltedByLimit, WholeUnlessHalted, WholeWithinLimit};
ghost use Rattle.rp_whole.specs.Named.{HeaderNames, HeaderNamesOf, ObjectsName};

use rp_value::law_value_order;

/// The rows of a text's partitions are rows of its table.
pub fn law_fitting()
    ensures { PartsFit }
{
    // Values are in one order, so that a row ties with itself, and rows in order are those that came.
    law_value_order();
}

/// The rows of a text's partitions by columns are rows of the table that these make.
pub fn law_fitting_columns()
    ensures { PartsFitColumns }
{
    law_value_order();
}

/// In an answer of output rows names head the cells: under each name of a CSV's header, and under each key of an object, are
/// the cells of the output column that has it, each null or of that column's kind.
pub fn law_header()
    ensures rows { HeaderNames }
    ensures text { HeaderNamesOf }
    ensures objects { ObjectsName }
{
    rp_known::law_named();
    law_fitting();
    rp_table::law_reads_back();
    rp_protocol::law_objects();
}

/// Where no answer is told as given up, all are whole. None is given up without a limit, nor under one where no start row may
/// take more turns.
pub fn law_limits()
    ensures whole { WholeUnlessHalted }
    ensures by_limit { HaltedByLimit }
    ensures within { WholeWithinLimit }
{
    rp_known::law_legs();
}
