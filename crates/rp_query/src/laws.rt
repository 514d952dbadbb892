//! The law of keys: that of a row that fits the table fits too. A call does nothing, and its caller may then use it.
ghost use Rattle.rp_query.specs.Keys.{KeysFit};

/// The law of keys: that of a row that fits the table fits the columns of PARTITION BY.
pub fn law_keys()
    ensures { KeysFit }
{}
