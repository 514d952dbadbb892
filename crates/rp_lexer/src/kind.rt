//! The kinds of tokens, and the spellings of those that have one.

/// What a token is.
#[derive(Clone, Copy, Debug, PartialEq, Eq)]
pub enum TokenKind {
    /// An ASCII letter or `_`, and then ASCII letters, digits and `_`, that is no reserved word. It means its upper-case form.
    Name,
    /// A reserved word, in any case.
    Keyword(Keyword),
    /// `"` .. `"`, with `""` for a quote inside, and at least one character inside: a name that means what stands inside.
    Quoted,
    /// A text literal: `'` .. `'`, with `''` for a quote inside.
    Text,
    /// One or more decimal digits, of a value of at most 9223372036854775807.
    Number,
    /// A sign of one or two characters.
    Mark(Mark),
}

/// A sign of one or two characters.
#[derive(Clone, Copy, Debug, PartialEq, Eq)]
pub enum Mark {
    /// `{-`
    LeftBraceMinus,
    /// `-}`
    RightBraceMinus,
    /// `<>`
    NotEquals,
    /// `<=`
    LessThanOrEquals,
    /// `>=`
    GreaterThanOrEquals,
    /// `(`
    LeftParenthesis,
    /// `)`
    RightParenthesis,
    /// `,`
    Comma,
    /// `.`
    Period,
    /// `*`
    Asterisk,
    /// `+`
    Plus,
    /// `-`
    Minus,
    /// `?`
    QuestionMark,
    /// `{`
    LeftBrace,
    /// `}`
    RightBrace,
    /// `|`
    VerticalBar,
    /// `^`
    Circumflex,
    /// `$`
    DollarSign,
    /// `=`
    Equals,
    /// `<`
    LessThan,
    /// `>`
    GreaterThan,
}

/// A reserved word, each with its spelling in upper case. The list is this project's own: the words of the clause and of its
/// expressions alone (that of ISO/IEC 9075-2:2016, 5.2, is another).
#[derive(Clone, Copy, Debug, PartialEq, Eq)]
pub enum Keyword {
    /// `AFTER`
    After,
    /// `ALL`
    All,
    /// `AND`
    And,
    /// `AS`
    As,
    /// `ASC`
    Asc,
    /// `BY`
    By,
    /// `CLASSIFIER`
    Classifier,
    /// `COUNT`
    Count,
    /// `DEFINE`
    Define,
    /// `DESC`
    Desc,
    /// `EMPTY`
    Empty,
    /// `FINAL`
    Final,
    /// `FIRST`
    First,
    /// `IS`
    Is,
    /// `LAST`
    Last,
    /// `MATCH`
    Match,
    /// `MATCHES`
    Matches,
    /// `MATCH_NUMBER`
    MatchNumber,
    /// `MATCH_RECOGNIZE`
    MatchRecognize,
    /// `MAX`
    Max,
    /// `MEASURES`
    Measures,
    /// `MIN`
    Min,
    /// `NEXT`
    Next,
    /// `NOT`
    Not,
    /// `NULL`
    Null,
    /// `OMIT`
    Omit,
    /// `ONE`
    One,
    /// `OR`
    Or,
    /// `ORDER`
    Order,
    /// `PARTITION`
    Partition,
    /// `PAST`
    Past,
    /// `PATTERN`
    Pattern,
    /// `PER`
    Per,
    /// `PERMUTE`
    Permute,
    /// `PREV`
    Prev,
    /// `ROW`
    Row,
    /// `ROWS`
    Rows,
    /// `RUNNING`
    Running,
    /// `SHOW`
    Show,
    /// `SKIP`
    Skip,
    /// `SUBSET`
    Subset,
    /// `SUM`
    Sum,
    /// `TO`
    To,
    /// `UNMATCHED`
    Unmatched,
    /// `WITH`
    With,
}

/// Each mark with its spelling. A longer mark stands before a shorter one that it begins with, as `<=` before `<`.
pub(crate) const MARKS: [(&[u8], Mark); 21] = [
    (b"{-", Mark::LeftBraceMinus),
    (b"-}", Mark::RightBraceMinus),
    (b"<>", Mark::NotEquals),
    (b"<=", Mark::LessThanOrEquals),
    (b">=", Mark::GreaterThanOrEquals),
    (b"(", Mark::LeftParenthesis),
    (b")", Mark::RightParenthesis),
    (b",", Mark::Comma),
    (b".", Mark::Period),
    (b"*", Mark::Asterisk),
    (b"+", Mark::Plus),
    (b"-", Mark::Minus),
    (b"?", Mark::QuestionMark),
    (b"{", Mark::LeftBrace),
    (b"}", Mark::RightBrace),
    (b"|", Mark::VerticalBar),
    (b"^", Mark::Circumflex),
    (b"$", Mark::DollarSign),
    (b"=", Mark::Equals),
    (b"<", Mark::LessThan),
    (b">", Mark::GreaterThan),
];

/// Each reserved word with its spelling.
pub(crate) const KEYWORDS: [(&[u8], Keyword); 45] = [
    (b"AFTER", Keyword::After),
    (b"ALL", Keyword::All),
    (b"AND", Keyword::And),
    (b"AS", Keyword::As),
    (b"ASC", Keyword::Asc),
    (b"BY", Keyword::By),
    (b"CLASSIFIER", Keyword::Classifier),
    (b"COUNT", Keyword::Count),
    (b"DEFINE", Keyword::Define),
    (b"DESC", Keyword::Desc),
    (b"EMPTY", Keyword::Empty),
    (b"FINAL", Keyword::Final),
    (b"FIRST", Keyword::First),
    (b"IS", Keyword::Is),
    (b"LAST", Keyword::Last),
    (b"MATCH", Keyword::Match),
    (b"MATCHES", Keyword::Matches),
    (b"MATCH_NUMBER", Keyword::MatchNumber),
    (b"MATCH_RECOGNIZE", Keyword::MatchRecognize),
    (b"MAX", Keyword::Max),
    (b"MEASURES", Keyword::Measures),
    (b"MIN", Keyword::Min),
    (b"NEXT", Keyword::Next),
    (b"NOT", Keyword::Not),
    (b"NULL", Keyword::Null),
    (b"OMIT", Keyword::Omit),
    (b"ONE", Keyword::One),
    (b"OR", Keyword::Or),
    (b"ORDER", Keyword::Order),
    (b"PARTITION", Keyword::Partition),
    (b"PAST", Keyword::Past),
    (b"PATTERN", Keyword::Pattern),
    (b"PER", Keyword::Per),
    (b"PERMUTE", Keyword::Permute),
    (b"PREV", Keyword::Prev),
    (b"ROW", Keyword::Row),
    (b"ROWS", Keyword::Rows),
    (b"RUNNING", Keyword::Running),
    (b"SHOW", Keyword::Show),
    (b"SKIP", Keyword::Skip),
    (b"SUBSET", Keyword::Subset),
    (b"SUM", Keyword::Sum),
    (b"TO", Keyword::To),
    (b"UNMATCHED", Keyword::Unmatched),
    (b"WITH", Keyword::With),
];
