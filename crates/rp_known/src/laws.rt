//! Laws of the known answer: that it only grows, leg by leg, and what its output rows have.
//! A call does nothing, and its caller may then use them.
ghost use Rattle.rp_known.specs.Earlier.{EarlierBegins, EarlierWalkStays, EarlierLegStays};
ghost use Rattle.rp_known.specs.Named.{KnownIsNamed};
ghost use Rattle.rp_known.specs.Typed.{KnownIsTyped};
ghost use Rattle.rp_known.specs.WalkLaws.{KnownGrows, WalkStays, LegStays, KnownIsShort, LegsLeadOn, SearchesLeadOn, MatchesAreKnown, FindingsStay, WalkIsInRows, SearchesLeadInRows, ContinuationsGoOn};

/// The laws of the known answer. What is known of an open partition begins what is known of every continuation, its
/// answer too; where a walk comes to, it comes to over every continuation; what a start row finds and gives stays; and a
/// known answer has fewer items than places can tell.
pub fn law_known()
    ensures grows { KnownGrows }
    ensures walk { WalkStays }
    ensures leg { LegStays }
    ensures found { FindingsStay }
    ensures short { KnownIsShort }
{
    rp_words::law_words();
    rp_search::law_found();
    rp_eval::law_values();
    rp_conditions::law_tests();
}

/// The laws of output rows. Each that is known has a cell for each output column, in their order: what that column has at a row
/// of a match that the walk finds, under the number that its MATCH_NUMBER() has, or at a row that is in none. Over rows of the query's
/// table it is null or of the column's kind.
pub fn law_named()
    ensures named { KnownIsNamed }
    ensures typed { KnownIsTyped }
{
    rp_eval::law_kinds();
}

/// The laws of one leg of the walk: it leads to a later row, if at all, and a match is of known rows, so that a walk
/// stays in the rows, and so does what follows a search. Over a continuation all rows go on.
pub fn law_legs()
    ensures lead { LegsLeadOn }
    ensures searches { SearchesLeadOn }
    ensures known { MatchesAreKnown }
    ensures in_rows { WalkIsInRows }
    ensures searches_in_rows { SearchesLeadInRows }
    ensures continuing { ContinuationsGoOn }
{
    rp_words::law_words();
}

/// What was known while an open side made every AND and OR open begins what is known now of the same rows. So the items
/// that were given then come first now. The search where the walk stood then it comes to now, after as many items; those
/// of this search that were given come first now, and an answer that had ended there ends there now.
pub fn law_earlier()
    ensures begins { EarlierBegins }
    ensures walk { EarlierWalkStays }
    ensures leg { EarlierLegStays }
{
    rp_words::law_words();
    rp_search::law_found();
    rp_eval::law_early_conditions();
}
