//! Laws of the token list.

ghost use Rattle.rp_lexer.specs.Laws.{OneTokenList, OneFirstFault, NoTokensWithFault, EachStands, OneNameMeaning, OneTextMeaning};

/// A text has at most one reading: at most one token list, at most one first fault, and not both. Each token of the list stands in the
/// text, and one that means a name or a literal's text means one alone.
pub fn law_lexes()
    ensures one_list { OneTokenList }
    ensures one_fault { OneFirstFault }
    ensures exclusive { NoTokensWithFault }
    ensures each_stands { EachStands }
    ensures one_name { OneNameMeaning }
    ensures one_text { OneTextMeaning }
{}
