//! Laws of compiled clauses: a text has one query, or one fault. A call does nothing, and its caller may then use them.

ghost use Rattle.rp_same_query.specs.SameQuery.{WordsFollow};
ghost use Rattle.rp_compile.specs.OneQuery.{OneQuery, NoQueryWithFault};

use rp_lexer::law_lexes;
use rp_same_query::law_same_words;

/// A text has one query over a table, wherever the parts of this are kept, or a fault, and not both. Patterns of one
/// shape have the same words. So a clause that is compiled anew gives the same.
pub fn law_compiled()
    ensures one_query { OneQuery }
    ensures exclusive { NoQueryWithFault }
    ensures patterns { WordsFollow }
{
    law_lexes();
    law_same_words();
}
