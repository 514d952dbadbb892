//! Clauses and tables with their trees, and clauses at fault. Expected trees were worked out by a plain second program that descends by
//! the written grammar, and so were the places of faults, by one that follows every way in which the rules may go on.
use crate::support::{same, shows, unless_refused_twice};
use crate::tree::tree_text;
use rp_compile::CompileFault;
use rp_grammar::ParseFault;
use rp_lexer::lex;
use rp_syntax::{TableTextFault, parse, read_table};
use rp_tree::Clause;
use std::alloc::{AllocError, Global};
use std::process::Abort;
use std::test::Fail;

/// The clause of a text, or its fault.
fn clause_of(alloc: Global, text: &str) -> Result<Clause, CompileFault> {
    let tokens = lex(alloc, text)?;
    Ok(parse(alloc, text, tokens.as_slice())?)
}

/// The tree of a text.
fn tree_of(alloc: Global, text: &str) -> Result<String, CompileFault> {
    match clause_of(alloc, text) {
        Ok(clause) => Ok(tree_text(alloc, &clause)?),
        Err(fault) => Err(fault),
    }
}

/// Asserts that each text has a tree with the part beside it.
fn check_trees(rt: &impl Abort, alloc: Global, trees: &[(&str, &str)]) -> Result<(), CompileFault> {
    for (text, part) in trees {
        let tree = tree_of(alloc, text)?;
        shows(rt, tree.as_str(), part);
    }
    Ok(())
}

/// Each optional part of a clause left out and put in, with all of its tree behind the text.
const CLAUSES: &[(&str, &str)] = &[
    (
        "PATTERN (A) DEFINE A AS p",
        r#"partition: [], order: [], measures: [], rows: One, skip: PastLastRow, pattern: Variable(Name { text: Text { string: "A" }, at: 9 }), subsets: [], definitions: [Definition { name: Name { text: Text { string: "A" }, at: 19 }, at: 24, expr: Navigation(Column(Column { qualifier: None, name: Name { text: Text { string: "P" }, at: 24 } })) }]"#,
    ),
    (
        r#"PARTITION BY a, "b" PATTERN (A) DEFINE A AS p"#,
        r#"partition: [Name { text: Text { string: "A" }, at: 13 }, Name { text: Text { string: "b" }, at: 16 }], order: [], measures: [], rows: One, skip: PastLastRow, pattern: Variable(Name { text: Text { string: "A" }, at: 29 }), subsets: [], definitions: [Definition { name: Name { text: Text { string: "A" }, at: 39 }, at: 44, expr: Navigation(Column(Column { qualifier: None, name: Name { text: Text { string: "P" }, at: 44 } })) }]"#,
    ),
    (
        "ORDER BY a, b ASC, c DESC PATTERN (A) DEFINE A AS p",
        r#"partition: [], order: [Order { name: Name { text: Text { string: "A" }, at: 9 }, descending: false }, Order { name: Name { text: Text { string: "B" }, at: 12 }, descending: false }, Order { name: Name { text: Text { string: "C" }, at: 19 }, descending: true }], measures: [], rows: One, skip: PastLastRow, pattern: Variable(Name { text: Text { string: "A" }, at: 35 }), subsets: [], definitions: [Definition { name: Name { text: Text { string: "A" }, at: 45 }, at: 50, expr: Navigation(Column(Column { qualifier: None, name: Name { text: Text { string: "P" }, at: 50 } })) }]"#,
    ),
    (
        "MEASURES p AS q, 1 AS r PATTERN (A) DEFINE A AS p",
        r#"partition: [], order: [], measures: [Measure { at: 9, expr: Navigation(Column(Column { qualifier: None, name: Name { text: Text { string: "P" }, at: 9 } })), name: Name { text: Text { string: "Q" }, at: 14 } }, Measure { at: 17, expr: Number { at: 17, value: 1 }, name: Name { text: Text { string: "R" }, at: 22 } }], rows: One, skip: PastLastRow, pattern: Variable(Name { text: Text { string: "A" }, at: 33 }), subsets: [], definitions: [Definition { name: Name { text: Text { string: "A" }, at: 43 }, at: 48, expr: Navigation(Column(Column { qualifier: None, name: Name { text: Text { string: "P" }, at: 48 } })) }]"#,
    ),
    (
        "ONE ROW PER MATCH PATTERN (A) DEFINE A AS p",
        r#"partition: [], order: [], measures: [], rows: One, skip: PastLastRow, pattern: Variable(Name { text: Text { string: "A" }, at: 27 }), subsets: [], definitions: [Definition { name: Name { text: Text { string: "A" }, at: 37 }, at: 42, expr: Navigation(Column(Column { qualifier: None, name: Name { text: Text { string: "P" }, at: 42 } })) }]"#,
    ),
    (
        "ALL ROWS PER MATCH PATTERN (A) DEFINE A AS p",
        r#"partition: [], order: [], measures: [], rows: AllShowEmpty, skip: PastLastRow, pattern: Variable(Name { text: Text { string: "A" }, at: 28 }), subsets: [], definitions: [Definition { name: Name { text: Text { string: "A" }, at: 38 }, at: 43, expr: Navigation(Column(Column { qualifier: None, name: Name { text: Text { string: "P" }, at: 43 } })) }]"#,
    ),
    (
        "ALL ROWS PER MATCH SHOW EMPTY MATCHES PATTERN (A) DEFINE A AS p",
        r#"partition: [], order: [], measures: [], rows: AllShowEmpty, skip: PastLastRow, pattern: Variable(Name { text: Text { string: "A" }, at: 47 }), subsets: [], definitions: [Definition { name: Name { text: Text { string: "A" }, at: 57 }, at: 62, expr: Navigation(Column(Column { qualifier: None, name: Name { text: Text { string: "P" }, at: 62 } })) }]"#,
    ),
    (
        "ALL ROWS PER MATCH OMIT EMPTY MATCHES PATTERN (A) DEFINE A AS p",
        r#"partition: [], order: [], measures: [], rows: AllOmitEmpty, skip: PastLastRow, pattern: Variable(Name { text: Text { string: "A" }, at: 47 }), subsets: [], definitions: [Definition { name: Name { text: Text { string: "A" }, at: 57 }, at: 62, expr: Navigation(Column(Column { qualifier: None, name: Name { text: Text { string: "P" }, at: 62 } })) }]"#,
    ),
    (
        "ALL ROWS PER MATCH WITH UNMATCHED ROWS PATTERN (A) DEFINE A AS p",
        r#"partition: [], order: [], measures: [], rows: AllWithUnmatched, skip: PastLastRow, pattern: Variable(Name { text: Text { string: "A" }, at: 48 }), subsets: [], definitions: [Definition { name: Name { text: Text { string: "A" }, at: 58 }, at: 63, expr: Navigation(Column(Column { qualifier: None, name: Name { text: Text { string: "P" }, at: 63 } })) }]"#,
    ),
    (
        "AFTER MATCH SKIP TO NEXT ROW PATTERN (A) DEFINE A AS p",
        r#"partition: [], order: [], measures: [], rows: One, skip: ToNextRow, pattern: Variable(Name { text: Text { string: "A" }, at: 38 }), subsets: [], definitions: [Definition { name: Name { text: Text { string: "A" }, at: 48 }, at: 53, expr: Navigation(Column(Column { qualifier: None, name: Name { text: Text { string: "P" }, at: 53 } })) }]"#,
    ),
    (
        "AFTER MATCH SKIP PAST LAST ROW PATTERN (A) DEFINE A AS p",
        r#"partition: [], order: [], measures: [], rows: One, skip: PastLastRow, pattern: Variable(Name { text: Text { string: "A" }, at: 40 }), subsets: [], definitions: [Definition { name: Name { text: Text { string: "A" }, at: 50 }, at: 55, expr: Navigation(Column(Column { qualifier: None, name: Name { text: Text { string: "P" }, at: 55 } })) }]"#,
    ),
    (
        "AFTER MATCH SKIP TO FIRST A PATTERN (A) DEFINE A AS p",
        r#"partition: [], order: [], measures: [], rows: One, skip: ToFirst(Name { text: Text { string: "A" }, at: 26 }), pattern: Variable(Name { text: Text { string: "A" }, at: 37 }), subsets: [], definitions: [Definition { name: Name { text: Text { string: "A" }, at: 47 }, at: 52, expr: Navigation(Column(Column { qualifier: None, name: Name { text: Text { string: "P" }, at: 52 } })) }]"#,
    ),
    (
        "AFTER MATCH SKIP TO LAST A PATTERN (A) DEFINE A AS p",
        r#"partition: [], order: [], measures: [], rows: One, skip: ToLast(Name { text: Text { string: "A" }, at: 25 }), pattern: Variable(Name { text: Text { string: "A" }, at: 36 }), subsets: [], definitions: [Definition { name: Name { text: Text { string: "A" }, at: 46 }, at: 51, expr: Navigation(Column(Column { qualifier: None, name: Name { text: Text { string: "P" }, at: 51 } })) }]"#,
    ),
    (
        "AFTER MATCH SKIP TO A PATTERN (A) DEFINE A AS p",
        r#"partition: [], order: [], measures: [], rows: One, skip: ToLast(Name { text: Text { string: "A" }, at: 20 }), pattern: Variable(Name { text: Text { string: "A" }, at: 31 }), subsets: [], definitions: [Definition { name: Name { text: Text { string: "A" }, at: 41 }, at: 46, expr: Navigation(Column(Column { qualifier: None, name: Name { text: Text { string: "P" }, at: 46 } })) }]"#,
    ),
    (
        "PATTERN (A) SUBSET U = (A, B), V = (U) DEFINE A AS p",
        r#"partition: [], order: [], measures: [], rows: One, skip: PastLastRow, pattern: Variable(Name { text: Text { string: "A" }, at: 9 }), subsets: [Union { name: Name { text: Text { string: "U" }, at: 19 }, members: [Name { text: Text { string: "A" }, at: 24 }, Name { text: Text { string: "B" }, at: 27 }] }, Union { name: Name { text: Text { string: "V" }, at: 31 }, members: [Name { text: Text { string: "U" }, at: 36 }] }], definitions: [Definition { name: Name { text: Text { string: "A" }, at: 46 }, at: 51, expr: Navigation(Column(Column { qualifier: None, name: Name { text: Text { string: "P" }, at: 51 } })) }]"#,
    ),
    (
        "PATTERN (A) DEFINE A AS p, B AS 1",
        r#"partition: [], order: [], measures: [], rows: One, skip: PastLastRow, pattern: Variable(Name { text: Text { string: "A" }, at: 9 }), subsets: [], definitions: [Definition { name: Name { text: Text { string: "A" }, at: 19 }, at: 24, expr: Navigation(Column(Column { qualifier: None, name: Name { text: Text { string: "P" }, at: 24 } })) }, Definition { name: Name { text: Text { string: "B" }, at: 27 }, at: 32, expr: Number { at: 32, value: 1 } }]"#,
    ),
    (
        "match_recognize ( PATTERN (A) DEFINE A AS p )",
        r#"partition: [], order: [], measures: [], rows: One, skip: PastLastRow, pattern: Variable(Name { text: Text { string: "A" }, at: 27 }), subsets: [], definitions: [Definition { name: Name { text: Text { string: "A" }, at: 37 }, at: 42, expr: Navigation(Column(Column { qualifier: None, name: Name { text: Text { string: "P" }, at: 42 } })) }]"#,
    ),
];

#[test]
fn optional_parts(rt: HostRuntime) -> Result<(), Fail> {
    Ok(check_trees(&rt, rt.alloc(), CLAUSES)?)
}

/// Each form of pattern and quantifier.
const PATTERNS: &[(&str, &str)] = &[
    (
        "PATTERN (A) DEFINE A AS p",
        r#"pattern: Variable(Name { text: Text { string: "A" }, at: 9 }), subsets"#,
    ),
    (
        r#"PATTERN ("a""b") DEFINE A AS p"#,
        r#"pattern: Variable(Name { text: Text { string: "a\"b" }, at: 9 }), subsets"#,
    ),
    ("PATTERN (()) DEFINE A AS p", "pattern: Empty, subsets"),
    (
        "PATTERN ((a)) DEFINE A AS p",
        r#"pattern: Variable(Name { text: Text { string: "A" }, at: 10 }), subsets"#,
    ),
    (
        "PATTERN (^ A $) DEFINE A AS p",
        r#"pattern: Concatenation([PartitionStart, Variable(Name { text: Text { string: "A" }, at: 11 }), PartitionEnd]), subsets"#,
    ),
    (
        "PATTERN (A B C) DEFINE A AS p",
        r#"pattern: Concatenation([Variable(Name { text: Text { string: "A" }, at: 9 }), Variable(Name { text: Text { string: "B" }, at: 11 }), Variable(Name { text: Text { string: "C" }, at: 13 })]), subsets"#,
    ),
    (
        "PATTERN (A | B C) DEFINE A AS p",
        r#"pattern: Alternation([Variable(Name { text: Text { string: "A" }, at: 9 }), Concatenation([Variable(Name { text: Text { string: "B" }, at: 13 }), Variable(Name { text: Text { string: "C" }, at: 15 })])]), subsets"#,
    ),
    (
        "PATTERN ((A | B) C) DEFINE A AS p",
        r#"pattern: Concatenation([Alternation([Variable(Name { text: Text { string: "A" }, at: 10 }), Variable(Name { text: Text { string: "B" }, at: 14 })]), Variable(Name { text: Text { string: "C" }, at: 17 })]), subsets"#,
    ),
    (
        "PATTERN (A*) DEFINE A AS p",
        r#"pattern: Quantified { body: Variable(Name { text: Text { string: "A" }, at: 9 }), quantifier: Quantifier { at: 10, lower: Bound { at: 10, count: 0 }, upper: None, reluctant: false } }, subsets"#,
    ),
    (
        "PATTERN (A+?) DEFINE A AS p",
        r#"pattern: Quantified { body: Variable(Name { text: Text { string: "A" }, at: 9 }), quantifier: Quantifier { at: 10, lower: Bound { at: 10, count: 1 }, upper: None, reluctant: true } }, subsets"#,
    ),
    (
        "PATTERN (A??) DEFINE A AS p",
        r#"pattern: Quantified { body: Variable(Name { text: Text { string: "A" }, at: 9 }), quantifier: Quantifier { at: 10, lower: Bound { at: 10, count: 0 }, upper: Some(Bound { at: 10, count: 1 }), reluctant: true } }, subsets"#,
    ),
    (
        "PATTERN (A{2}) DEFINE A AS p",
        r#"pattern: Quantified { body: Variable(Name { text: Text { string: "A" }, at: 9 }), quantifier: Quantifier { at: 10, lower: Bound { at: 11, count: 2 }, upper: Some(Bound { at: 11, count: 2 }), reluctant: false } }, subsets"#,
    ),
    (
        "PATTERN (A{2}?) DEFINE A AS p",
        r#"pattern: Quantified { body: Variable(Name { text: Text { string: "A" }, at: 9 }), quantifier: Quantifier { at: 10, lower: Bound { at: 11, count: 2 }, upper: Some(Bound { at: 11, count: 2 }), reluctant: true } }, subsets"#,
    ),
    (
        "PATTERN (A{2,}) DEFINE A AS p",
        r#"pattern: Quantified { body: Variable(Name { text: Text { string: "A" }, at: 9 }), quantifier: Quantifier { at: 10, lower: Bound { at: 11, count: 2 }, upper: None, reluctant: false } }, subsets"#,
    ),
    (
        "PATTERN (A{2,3}?) DEFINE A AS p",
        r#"pattern: Quantified { body: Variable(Name { text: Text { string: "A" }, at: 9 }), quantifier: Quantifier { at: 10, lower: Bound { at: 11, count: 2 }, upper: Some(Bound { at: 13, count: 3 }), reluctant: true } }, subsets"#,
    ),
    (
        "PATTERN (A{,3}) DEFINE A AS p",
        r#"pattern: Quantified { body: Variable(Name { text: Text { string: "A" }, at: 9 }), quantifier: Quantifier { at: 10, lower: Bound { at: 10, count: 0 }, upper: Some(Bound { at: 12, count: 3 }), reluctant: false } }, subsets"#,
    ),
    (
        "PATTERN (PERMUTE(A, B | C)) DEFINE A AS p",
        r#"pattern: Permute { at: 9, parts: [Variable(Name { text: Text { string: "A" }, at: 17 }), Alternation([Variable(Name { text: Text { string: "B" }, at: 20 }), Variable(Name { text: Text { string: "C" }, at: 24 })])] }, subsets"#,
    ),
    (
        "PATTERN ({- A B -}) DEFINE A AS p",
        r#"pattern: Exclusion { at: 9, body: Concatenation([Variable(Name { text: Text { string: "A" }, at: 12 }), Variable(Name { text: Text { string: "B" }, at: 14 })]) }, subsets"#,
    ),
];

#[test]
fn pattern_forms(rt: HostRuntime) -> Result<(), Fail> {
    Ok(check_trees(&rt, rt.alloc(), PATTERNS)?)
}

/// Each form of expression.
const EXPRESSIONS: &[(&str, &str)] = &[
    (
        "PATTERN (A) DEFINE A AS p = 1 OR q = 2 AND r = 3 OR s = 4",
        r#"at: 24, expr: FromRight { first: Comparison { left: Navigation(Column(Column { qualifier: None, name: Name { text: Text { string: "P" }, at: 24 } })), operation: Operation { operator: Equals, at: 26 }, right: Number { at: 28, value: 1 } }, rest: [(Operation { operator: Or, at: 30 }, FromRight { first: Comparison { left: Navigation(Column(Column { qualifier: None, name: Name { text: Text { string: "Q" }, at: 33 } })), operation: Operation { operator: Equals, at: 35 }, right: Number { at: 37, value: 2 } }, rest: [(Operation { operator: And, at: 39 }, Comparison { left: Navigation(Column(Column { qualifier: None, name: Name { text: Text { string: "R" }, at: 43 } })), operation: Operation { operator: Equals, at: 45 }, right: Number { at: 47, value: 3 } })] }), (Operation { operator: Or, at: 49 }, Comparison { left: Navigation(Column(Column { qualifier: None, name: Name { text: Text { string: "S" }, at: 52 } })), operation: Operation { operator: Equals, at: 54 }, right: Number { at: 56, value: 4 } })] } }] }"#,
    ),
    (
        "PATTERN (A) DEFINE A AS p AND q OR r",
        r#"at: 24, expr: FromRight { first: FromRight { first: Navigation(Column(Column { qualifier: None, name: Name { text: Text { string: "P" }, at: 24 } })), rest: [(Operation { operator: And, at: 26 }, Navigation(Column(Column { qualifier: None, name: Name { text: Text { string: "Q" }, at: 30 } })))] }, rest: [(Operation { operator: Or, at: 32 }, Navigation(Column(Column { qualifier: None, name: Name { text: Text { string: "R" }, at: 35 } })))] } }] }"#,
    ),
    (
        "PATTERN (A) DEFINE A AS NOT p <> -1",
        r#"at: 24, expr: Not { at: 24, body: Comparison { left: Navigation(Column(Column { qualifier: None, name: Name { text: Text { string: "P" }, at: 28 } })), operation: Operation { operator: NotEquals, at: 30 }, right: Negative { at: 33, body: Number { at: 34, value: 1 } } } } }] }"#,
    ),
    (
        "PATTERN (A) DEFINE A AS p IS NULL",
        r#"at: 24, expr: IsNull { at: 26, body: Navigation(Column(Column { qualifier: None, name: Name { text: Text { string: "P" }, at: 24 } })), negated: false } }] }"#,
    ),
    (
        "PATTERN (A) DEFINE A AS p IS NOT NULL",
        r#"at: 24, expr: IsNull { at: 26, body: Navigation(Column(Column { qualifier: None, name: Name { text: Text { string: "P" }, at: 24 } })), negated: true } }] }"#,
    ),
    (
        "PATTERN (A) DEFINE A AS a - b + c * d * e",
        r#"at: 24, expr: FromLeft { first: Navigation(Column(Column { qualifier: None, name: Name { text: Text { string: "A" }, at: 24 } })), rest: [(Operation { operator: Minus, at: 26 }, Navigation(Column(Column { qualifier: None, name: Name { text: Text { string: "B" }, at: 28 } }))), (Operation { operator: Plus, at: 30 }, FromLeft { first: Navigation(Column(Column { qualifier: None, name: Name { text: Text { string: "C" }, at: 32 } })), rest: [(Operation { operator: Times, at: 34 }, Navigation(Column(Column { qualifier: None, name: Name { text: Text { string: "D" }, at: 36 } }))), (Operation { operator: Times, at: 38 }, Navigation(Column(Column { qualifier: None, name: Name { text: Text { string: "E" }, at: 40 } })))] })] } }] }"#,
    ),
    (
        "PATTERN (A) DEFINE A AS (a < b) > (c >= d)",
        r#"at: 24, expr: Comparison { left: Comparison { left: Navigation(Column(Column { qualifier: None, name: Name { text: Text { string: "A" }, at: 25 } })), operation: Operation { operator: Less, at: 27 }, right: Navigation(Column(Column { qualifier: None, name: Name { text: Text { string: "B" }, at: 29 } })) }, operation: Operation { operator: Greater, at: 32 }, right: Comparison { left: Navigation(Column(Column { qualifier: None, name: Name { text: Text { string: "C" }, at: 35 } })), operation: Operation { operator: GreaterOrEquals, at: 37 }, right: Navigation(Column(Column { qualifier: None, name: Name { text: Text { string: "D" }, at: 40 } })) } } }] }"#,
    ),
    (
        "PATTERN (A) DEFINE A AS A.p <= 'it''s'",
        r#"at: 24, expr: Comparison { left: Navigation(Column(Column { qualifier: Some(Name { text: Text { string: "A" }, at: 24 }), name: Name { text: Text { string: "P" }, at: 26 } })), operation: Operation { operator: LessOrEquals, at: 28 }, right: Text { at: 31, text: Text { string: "it's" } } } }] }"#,
    ),
    (
        "PATTERN (A) DEFINE A AS MATCH_NUMBER() = CLASSIFIER()",
        "at: 24, expr: Comparison { left: MatchNumber(24), operation: Operation { operator: Equals, at: 39 }, right: Classifier(41) } }] }",
    ),
    (
        "PATTERN (A) DEFINE A AS PREV(p)",
        r#"at: 24, expr: Navigation(Move { movement: Prev, at: 24, argument: Column(Column { qualifier: None, name: Name { text: Text { string: "P" }, at: 29 } }), offset: None }) }] }"#,
    ),
    (
        "PATTERN (A) DEFINE A AS NEXT(A.p, 3)",
        r#"at: 24, expr: Navigation(Move { movement: Next, at: 24, argument: Column(Column { qualifier: Some(Name { text: Text { string: "A" }, at: 29 }), name: Name { text: Text { string: "P" }, at: 31 } }), offset: Some(Offset { at: 34, rows: 3 }) }) }] }"#,
    ),
    (
        "PATTERN (A) DEFINE A AS FIRST(p)",
        r#"at: 24, expr: Navigation(Move { movement: First(None), at: 24, argument: Column(Column { qualifier: None, name: Name { text: Text { string: "P" }, at: 30 } }), offset: None }) }] }"#,
    ),
    (
        "PATTERN (A) DEFINE A AS RUNNING LAST(p, 2)",
        r#"at: 24, expr: Navigation(Move { movement: Last(Some(Scope { at: 24, is_final: false })), at: 32, argument: Column(Column { qualifier: None, name: Name { text: Text { string: "P" }, at: 37 } }), offset: Some(Offset { at: 40, rows: 2 }) }) }] }"#,
    ),
    (
        "PATTERN (A) DEFINE A AS PREV(FINAL FIRST(A.p), 1)",
        r#"at: 24, expr: Navigation(Move { movement: Prev, at: 24, argument: Move { movement: First(Some(Scope { at: 29, is_final: true })), at: 35, argument: Column(Column { qualifier: Some(Name { text: Text { string: "A" }, at: 41 }), name: Name { text: Text { string: "P" }, at: 43 } }), offset: None }, offset: Some(Offset { at: 47, rows: 1 }) }) }] }"#,
    ),
    (
        "PATTERN (A) DEFINE A AS COUNT(*)",
        "at: 24, expr: Aggregate(Aggregate { scope: None, at: 24, function: Count(Rows) }) }] }",
    ),
    (
        "PATTERN (A) DEFINE A AS FINAL COUNT(A.*)",
        r#"at: 24, expr: Aggregate(Aggregate { scope: Some(Scope { at: 24, is_final: true }), at: 30, function: Count(RowsOf(Name { text: Text { string: "A" }, at: 36 })) }) }] }"#,
    ),
    (
        "PATTERN (A) DEFINE A AS COUNT(p)",
        r#"at: 24, expr: Aggregate(Aggregate { scope: None, at: 24, function: Count(Column(Column { qualifier: None, name: Name { text: Text { string: "P" }, at: 30 } })) }) }] }"#,
    ),
    (
        "PATTERN (A) DEFINE A AS COUNT(A.p)",
        r#"at: 24, expr: Aggregate(Aggregate { scope: None, at: 24, function: Count(Column(Column { qualifier: Some(Name { text: Text { string: "A" }, at: 30 }), name: Name { text: Text { string: "P" }, at: 32 } })) }) }] }"#,
    ),
    (
        "PATTERN (A) DEFINE A AS RUNNING SUM(p)",
        r#"at: 24, expr: Aggregate(Aggregate { scope: Some(Scope { at: 24, is_final: false }), at: 32, function: Sum(Column { qualifier: None, name: Name { text: Text { string: "P" }, at: 36 } }) }) }] }"#,
    ),
    (
        "PATTERN (A) DEFINE A AS MIN(A.p)",
        r#"at: 24, expr: Aggregate(Aggregate { scope: None, at: 24, function: Min(Column { qualifier: Some(Name { text: Text { string: "A" }, at: 28 }), name: Name { text: Text { string: "P" }, at: 30 } }) }) }] }"#,
    ),
    (
        "PATTERN (A) DEFINE A AS MAX(p)",
        r#"at: 24, expr: Aggregate(Aggregate { scope: None, at: 24, function: Max(Column { qualifier: None, name: Name { text: Text { string: "P" }, at: 28 } }) }) }] }"#,
    ),
];

#[test]
fn expression_forms(rt: HostRuntime) -> Result<(), Fail> {
    Ok(check_trees(&rt, rt.alloc(), EXPRESSIONS)?)
}

/// A clause with names, texts and numbers that mean something else than they are written as.
const MEANINGS: &[(&str, &str)] = &[(
    r#"PARTITION BY s ORDER BY t MEASURES SUM(aB_1) AS "a""é and far more" PATTERN (A B+ | {- C -}) SUBSET U = (A) DEFINE A AS -p = 'it''s longer than that' AND NOT PREV(p, 042) IS NULL"#,
    r#"Clause { text: Text { string: "PARTITION BY s ORDER BY t MEASURES SUM(aB_1) AS \"a\"\"é and far more\" PATTERN (A B+ | {- C -}) SUBSET U = (A) DEFINE A AS -p = 'it''s longer than that' AND NOT PREV(p, 042) IS NULL" }, partition: [Name { text: Text { string: "S" }, at: 13 }], order: [Order { name: Name { text: Text { string: "T" }, at: 24 }, descending: false }], measures: [Measure { at: 35, expr: Aggregate(Aggregate { scope: None, at: 35, function: Sum(Column { qualifier: None, name: Name { text: Text { string: "AB_1" }, at: 39 } }) }), name: Name { text: Text { string: "a\"é and far more" }, at: 48 } }], rows: One, skip: PastLastRow, pattern: Alternation([Concatenation([Variable(Name { text: Text { string: "A" }, at: 78 }), Quantified { body: Variable(Name { text: Text { string: "B" }, at: 80 }), quantifier: Quantifier { at: 81, lower: Bound { at: 81, count: 1 }, upper: None, reluctant: false } }]), Exclusion { at: 85, body: Variable(Name { text: Text { string: "C" }, at: 88 }) }]), subsets: [Union { name: Name { text: Text { string: "U" }, at: 101 }, members: [Name { text: Text { string: "A" }, at: 106 }] }], definitions: [Definition { name: Name { text: Text { string: "A" }, at: 116 }, at: 121, expr: FromRight { first: Comparison { left: Negative { at: 121, body: Navigation(Column(Column { qualifier: None, name: Name { text: Text { string: "P" }, at: 122 } })) }, operation: Operation { operator: Equals, at: 124 }, right: Text { at: 126, text: Text { string: "it's longer than that" } } }, rest: [(Operation { operator: And, at: 151 }, Not { at: 155, body: IsNull { at: 172, body: Navigation(Move { movement: Prev, at: 159, argument: Column(Column { qualifier: None, name: Name { text: Text { string: "P" }, at: 164 } }), offset: Some(Offset { at: 167, rows: 42 }) }), negated: false } })] } }] }"#,
)];

#[test]
fn refused_clause(rt: HostRuntime) -> Result<(), Fail> {
    let alloc = rt.alloc();
    unless_refused_twice(
        check_trees(&rt, alloc, MEANINGS).is_ok() || check_trees(&rt, alloc, MEANINGS).is_ok(),
    )
}

/// Asserts that a text with each kind of column has a table of them.
fn check_table(rt: &impl Abort, alloc: Global) -> Result<(), TableTextFault> {
    let text = "sym text, t int, \"p q\" varchar, b BIGINT, i Integer";
    let table = read_table(alloc, text)?;
    let columns = table.columns();
    same(rt, format!(in alloc; "{columns:?}")?.as_str(), COLUMNS);
    Ok(())
}

const COLUMNS: &str =
    r#"[Column { name: Text { string: "SYM" }, kind: Text }, Column { name: Text { string: "T" }, kind: Int }, Column { name: Text { string: "p q" }, kind: Text }, Column { name: Text { string: "B" }, kind: Int }, Column { name: Text { string: "I" }, kind: Int }]"#;

#[test]
fn refused_tables(rt: HostRuntime) -> Result<(), Fail> {
    let alloc = rt.alloc();
    unless_refused_twice(check_table(&rt, alloc).is_ok() || check_table(&rt, alloc).is_ok())
}

/// The words of a clause that has each part. Behind each stands where the clause is at fault without the word, and where it is with the
/// word twice; a dash, where it isn't.
const WORDS: &str = "\
PARTITION 0 10
BY 10 13
s 13 15
ORDER 15 21
BY 21 24
t 24 26
DESC - 31
MEASURES 31 40
FINAL - 46
SUM 46 50
( 50 52
A 52 54
. 54 56
p 56 58
) 58 60
AS 60 63
n 63 65
ALL 65 69
ROWS 69 74
PER 74 78
MATCH 78 84
AFTER 84 90
MATCH 90 96
SKIP 96 101
TO 101 104
LAST - 109
A 109 111
PATTERN 111 119
( 119 151
A 121 -
{ 123 125
1 - 127
, 127 129
2 - 131
} 131 133
? - 135
( 143 151
B 137 -
| - 141
C 141 -
) 147 147
* - 147
) 147 149
SUBSET 149 156
U 156 158
= 158 160
( 160 162
A 162 164
, 164 166
B 166 168
) 168 170
DEFINE 170 177
A 177 179
AS 179 182
NOT - 186
p 186 188
+ 188 190
1 190 192
< 192 194
PREV 198 199
( 199 201
p 201 203
, 203 205
2 205 207
) 207 209
AND 209 213
p 213 215
IS 215 218
NULL 218 223";

/// The word that a line begins with.
fn word_of(line: &str) -> &str {
    match line.split_once(' ') {
        Some((word, _)) => word,
        None => line,
    }
}

/// Adds a word so many times, each with a blank behind it.
fn push_words(out: &mut String, word: &str, times: usize) -> Result<(), AllocError> {
    for _ in 0..times {
        out.push_str(word)?;
        out.push(' ')?;
    }
    Ok(())
}

/// The clause of the lines' words, where the word of one line stands so many times.
fn clause_with(
    alloc: Global,
    lines: &str,
    index: usize,
    times: usize,
) -> Result<String, AllocError> {
    let mut text = String::new(alloc);
    for (place, line) in lines.lines().enumerate() {
        let count = if place == index { times } else { 1 };
        push_words(&mut text, word_of(line), count)?;
    }
    Ok(text)
}

/// Reads a clause, and lets it go.
fn read(alloc: Global, text: &str) -> Result<(), CompileFault> {
    match clause_of(alloc, text) {
        Ok(_clause) => Ok(()),
        Err(fault) => Err(fault),
    }
}

/// Adds where a text is at fault.
fn push_fault(told: &mut String, alloc: Global, text: &str) -> Result<(), CompileFault> {
    match read(alloc, text) {
        Ok(()) => Ok(told.push_str(" -")?),
        Err(CompileFault::Parse(ParseFault::Expected(at))) => Ok(write!(told, " {at}")?),
        Err(fault) => Err(fault),
    }
}

/// Adds where the clause with this word so many times is at fault.
fn push_fault_with(
    told: &mut String,
    alloc: Global,
    lines: &str,
    index: usize,
    times: usize,
) -> Result<(), CompileFault> {
    let text = clause_with(alloc, lines, index, times)?;
    push_fault(told, alloc, text.as_str())
}

/// Asserts that the clause is at fault where each line says.
fn check_words(rt: &impl Abort, alloc: Global, lines: &str) -> Result<(), CompileFault> {
    for (index, line) in lines.lines().enumerate() {
        let mut told = String::from_str(alloc, word_of(line))?;
        push_fault_with(&mut told, alloc, lines, index, 0)?;
        push_fault_with(&mut told, alloc, lines, index, 2)?;
        same(rt, told.as_str(), line);
    }
    Ok(())
}

/// Each token of a clause dropped and doubled in turn.
#[test]
fn dropped_and_doubled_tokens(rt: HostRuntime) -> Result<(), Fail> {
    Ok(check_words(&rt, rt.alloc(), WORDS)?)
}

/// A front, a part that may stand any number of times, and what stands behind.
const LISTS: &[(&str, &str, &str)] = &[
    ("PATTERN (A", " A", ") DEFINE A AS p"),
    ("PATTERN (A", "|A", ") DEFINE A AS p"),
    ("PATTERN (A) DEFINE A AS p", " AND p", ""),
    ("PATTERN (A) DEFINE A AS p", " + 1", ""),
    ("MEASURES p AS q", ", p AS q", " PATTERN (A) DEFINE A AS p"),
];

/// A list with a part so many times.
fn list_of(
    alloc: Global,
    before: &str,
    part: &str,
    count: usize,
    behind: &str,
) -> Result<String, AllocError> {
    let parts = part.repeat(alloc, count)?;
    format!(in alloc; "{before}{parts}{behind}")
}

/// Lists take no stack: so many variables, terms, numbers and measures are read and dropped.
fn long_lists(
    alloc: Global,
    lists: &[(&str, &str, &str)],
    count: usize,
) -> Result<(), CompileFault> {
    for (before, part, behind) in lists {
        let text = list_of(alloc, before, part, count, behind)?;
        read(alloc, text.as_str())?;
    }
    Ok(())
}

#[test]
fn lists_of_1_000_parts(rt: HostRuntime) -> Result<(), Fail> {
    Ok(long_lists(rt.alloc(), LISTS, 1000)?)
}

#[test]
fn lists_of_10_000_parts(rt: HostRuntime) -> Result<(), Fail> {
    Ok(long_lists(rt.alloc(), LISTS, 10000)?)
}
