//! When two queries are the same, wherever the parts of each are kept.
//!
//! A clause that is compiled twice, as by two processes, gives two queries. They are not equal as values, since their
//! trees stand at other places in memory, but they are made of the same: `specs/SameQuery`.
#![tactic(auto)]

ghost use Rattle.rp_same_query.specs.SameQuery.{WordsFollow};

/// Patterns of one shape have the same words.
pub fn law_same_words()
    ensures { WordsFollow }
{}
