//! Laws of what is found among words, of searches over what goes on, and of tests that agree.
//! A call does nothing, and its caller may then use them.
ghost use Rattle.rp_search.specs.Agreement.{SameIsTested, SameIsTestedFirst, HeadedAgree, SameStatus, SameIsFound, LeaderFindsSame, LeaderHeads};
ghost use Rattle.rp_search.specs.Asked.{UnnamedExtend};
ghost use Rattle.rp_search.specs.Bound.{WorkGrows};
ghost use Rattle.rp_search.specs.FoundLaws.{FoundStays, FoundResumes, ClosedDecides, MatchIsWord, RefusedStays, GoodStays};
ghost use Rattle.rp_search.specs.Search.{SearchFitsStays, LeftIsBounded, LeftIsSame, VariablesAreBelow};

use rp_words::{law_labels, law_leaders};

/// The laws of what is found. A match is one of the words, and the first that isn't refused. What is found stays over
/// whatever comes later unless it waits, and where it waits it goes on from the word where it waited. Where each word is
/// full, as over a closed end, and no test is open, nothing is waited for. What is refused or good stays so.
pub fn law_found()
    ensures word { MatchIsWord }
    ensures stays { FoundStays }
    ensures resumes { FoundResumes }
    ensures closed { ClosedDecides }
    ensures refused { RefusedStays }
    ensures good { GoodStays }
{}

/// The laws of a search that fits what is asked. It fits all that extends it, and has no more turns left than its
/// pattern takes from its start row and one for each word, and as many over what answers the same. The labels of its words
/// are of the pattern's variables. With each row that becomes known no more is left to it than all places take at a row. Where no
/// pattern is named, what extends what is asked need keep only what was decided from the search's own start row.
pub fn law_search()
    ensures stays { SearchFitsStays }
    ensures bounded { LeftIsBounded }
    ensures same { LeftIsSame }
    ensures variables { VariablesAreBelow }
    ensures work { WorkGrows }
    ensures unnamed { UnnamedExtend }
{
    law_labels();
}

/// The laws of tests that agree. A word is tested label by label, each with those before it, so what is found among words
/// depends on what tests say of their labels alone. Among the words of a pattern that a variable leads, it depends on what they
/// say of labels that begin with that variable.
pub fn law_agreement()
    ensures tests { SameIsTested }
    ensures first { SameIsTestedFirst }
    ensures status { SameStatus }
    ensures words { SameIsFound }
    ensures headed { HeadedAgree }
    ensures led { LeaderFindsSame }
    ensures heads { LeaderHeads }
{
    law_leaders();
}
