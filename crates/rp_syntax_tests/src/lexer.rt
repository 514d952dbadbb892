//! Texts with their tokens.
use crate::support::{same, unless_refused_twice};
use rp_lexer::{LexFault, Token, lex};
use std::alloc::{AllocError, Global};
use std::process::Abort;
use std::test::Fail;

/// Texts, each with its tokens by their kinds, starts and ends; or with its first fault.
const TEXTS: &[(&str, &str)] = &[
    ("", ""),
    (" \t\r\n--", ""),
    ("a--b\n'it''s'", "Name 0 1, Text 5 12, "),
    ("a---}b\nc", "Name 0 1, Name 7 8, "),
    ("a\rb--\r", "Name 0 1, Name 2 3, "),
    (
        "{--}",
        "Mark(LeftBraceMinus) 0 2, Mark(RightBraceMinus) 2 4, ",
    ),
    ("a<>1", "Name 0 1, Mark(NotEquals) 1 3, Number 3 4, "),
    (MARKS, MARK_TOKENS),
    (RESERVED_WORDS, RESERVED_WORD_TOKENS),
    ("ands", "Name 0 4, "),
    ("9223372036854775807", "Number 0 19, "),
    ("00000000000000000000001", "Number 0 23, "),
    ("1a", "Number 0 1, Name 1 2, "),
    ("_1", "Name 0 2, "),
    ("\"a\"\"b\"", "Quoted 0 6, "),
    ("\"and\"", "Quoted 0 5, "),
    ("\"\"\"\"", "Quoted 0 4, "),
    ("''", "Text 0 2, "),
    ("'é'\"λ\"", "Text 0 4, Quoted 4 8, "),
    ("a--é\nb", "Name 0 1, Name 6 7, "),
    (
        "pattern --'\n a \"b\"\"c\" 'it''s' 42 <= {- B",
        "Keyword(Pattern) 0 7, Name 13 14, Quoted 15 21, Text 22 29, Number 30 32, \
         Mark(LessThanOrEquals) 33 35, Mark(LeftBraceMinus) 36 38, Name 39 40, ",
    ),
    ("a --\"\n \"b\"\"c\" 'd''e' 12 <> λ", "BadChar at byte 27"),
    (
        "a --\"\n \"b\"\"c\" 'd''e' 12 <> 'f''",
        "OpenText at byte 27",
    ),
];

const MARKS: &str = "( ) , . * + - ? { } {- -} | ^ $ = <> < <= > >=";

const MARK_TOKENS: &str = "\
Mark(LeftParenthesis) 0 1, Mark(RightParenthesis) 2 3, Mark(Comma) 4 5, Mark(Period) 6 7, Mark(Asterisk) 8 9, Mark(Plus) 10 11, \
Mark(Minus) 12 13, Mark(QuestionMark) 14 15, Mark(LeftBrace) 16 17, Mark(RightBrace) 18 19, Mark(LeftBraceMinus) 20 22, \
Mark(RightBraceMinus) 23 25, Mark(VerticalBar) 26 27, Mark(Circumflex) 28 29, Mark(DollarSign) 30 31, Mark(Equals) 32 33, \
Mark(NotEquals) 34 36, Mark(LessThan) 37 38, Mark(LessThanOrEquals) 39 41, Mark(GreaterThan) 42 43, \
Mark(GreaterThanOrEquals) 44 46, ";

/// Each reserved word, in mixed case.
const RESERVED_WORDS: &str = "\
aFTER aLL aND aS aSC bY cLASSIFIER cOUNT dEFINE dESC eMPTY fINAL fIRST iS lAST mATCH mATCHES mATCH_nUMBER mATCH_rECOGNIZE mAX \
mEASURES mIN nEXT nOT nULL oMIT oNE oR oRDER pARTITION pAST pATTERN pER pERMUTE pREV rOW rOWS rUNNING sHOW sKIP sUBSET sUM tO \
uNMATCHED wITH";

const RESERVED_WORD_TOKENS: &str = "\
Keyword(After) 0 5, Keyword(All) 6 9, Keyword(And) 10 13, Keyword(As) 14 16, Keyword(Asc) 17 20, Keyword(By) 21 23, \
Keyword(Classifier) 24 34, Keyword(Count) 35 40, Keyword(Define) 41 47, Keyword(Desc) 48 52, Keyword(Empty) 53 58, \
Keyword(Final) 59 64, Keyword(First) 65 70, Keyword(Is) 71 73, Keyword(Last) 74 78, Keyword(Match) 79 84, Keyword(Matches) 85 92, \
Keyword(MatchNumber) 93 105, Keyword(MatchRecognize) 106 121, Keyword(Max) 122 125, Keyword(Measures) 126 134, \
Keyword(Min) 135 138, Keyword(Next) 139 143, Keyword(Not) 144 147, Keyword(Null) 148 152, Keyword(Omit) 153 157, \
Keyword(One) 158 161, Keyword(Or) 162 164, Keyword(Order) 165 170, Keyword(Partition) 171 180, Keyword(Past) 181 185, \
Keyword(Pattern) 186 193, Keyword(Per) 194 197, Keyword(Permute) 198 205, Keyword(Prev) 206 210, Keyword(Row) 211 214, \
Keyword(Rows) 215 219, Keyword(Running) 220 227, Keyword(Show) 228 232, Keyword(Skip) 233 237, Keyword(Subset) 238 244, \
Keyword(Sum) 245 248, Keyword(To) 249 251, Keyword(Unmatched) 252 261, Keyword(With) 262 266, ";

/// What is told of tokens.
fn told_of(alloc: Global, tokens: &[Token]) -> Result<String, AllocError> {
    let mut told = String::new(alloc);
    for token in tokens {
        let Token { kind, start, end } = *token;
        write!(told, "{kind:?} {start} {end}, ")?;
    }
    Ok(told)
}

/// What is told of a text.
fn told(alloc: Global, text: &str) -> Result<String, AllocError> {
    match lex(alloc, text) {
        Ok(tokens) => told_of(alloc, tokens.as_slice()),
        Err(LexFault::OutOfMemory) => Err(AllocError),
        Err(fault) => format!(in alloc; "{fault}"),
    }
}

/// Asserts that this is told of each text.
fn check_texts(rt: &impl Abort, alloc: Global, texts: &[(&str, &str)]) -> Result<(), AllocError> {
    for (text, wanted) in texts {
        let came = told(alloc, text)?;
        same(rt, came.as_str(), wanted);
    }
    Ok(())
}

#[test]
fn refused_tokens(rt: HostRuntime) -> Result<(), Fail> {
    let alloc = rt.alloc();
    unless_refused_twice(
        check_texts(&rt, alloc, TEXTS).is_ok() || check_texts(&rt, alloc, TEXTS).is_ok(),
    )
}
