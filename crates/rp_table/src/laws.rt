//! A law over the definitions alone.
ghost use Rattle.rp_table.specs.ReadBack.{ReadsBack};

/// What is written reads back: csv's reader reads the fields of each record, one after another.
pub fn law_reads_back()
    ensures { ReadsBack }
{}
