//! Clauses.

ghost use Rattle.std.specs.Prelude.{◌≡◌, ◌≢◌, map, All, IfOk, IfErr};
ghost use Rattle.rp_lexer.specs.Lexes.{IsToken};
ghost use Rattle.rp_grammar.specs.Reading.{IsFaultIn};
ghost use Rattle.rp_tree.specs.Tree.{tree_of};
ghost use Rattle.rp_grammar.specs.Grammar.{gives, listed, second, word, ◌then◌};
ghost use Rattle.rp_grammar.specs.Names.{name};
ghost use Rattle.rp_grammar.specs.Readers.{Reads, ReadsSome, itself};
ghost use Rattle.rp_tree.specs.Clauses.{clause_tree, definition_tree, later_trees, measure_tree, union_tree};
ghost use Rattle.rp_syntax.specs.Derived.{DerivesNone, DerivesOnly};
ghost use Rattle.rp_syntax.specs.ClauseGrammar.{Derives, all_rows, body, bracketed, clause, define_part, definition, later_parts, measure, measures_part, one_row, order, order_part, partition_part, pattern_part, rows_part, shown, skip, skip_part, subset_part, target, three_words, two_words, union};

use crate::cursor::after;
use rp_expressions::expr;
use rp_grammar::{Name, ParseFault, Parsed, begins, name, opening, place, word};
use rp_lexer::{Keyword, Mark, Token, TokenKind};
use rp_patterns::inner as inner_pattern;
use rp_tree::{Clause, Definition, Measure, Order, Pattern, RowsPerMatch, Skip, Union};
use rp_value::Text;
use std::alloc::{AllocError, Global};

/// The most brackets that may be open, which bounds how deep the calls of this parser go.
const MAX_OPEN: usize = 100;

/// A column to order by, and what follows.
#[tactic(auto, unfolding(crate::specs::ClauseGrammar::order))]
fn order<'a>(alloc: Global, text: &str, tokens: &'a [Token]) -> Parsed<'a, Order>
    requires stands { All (IsToken text.now) tokens.now }
    ensures { Reads order itself text.now tokens.now result }
{
    let (name, rest) = name(alloc, text, tokens)?;
    if let Some(rest) = after(rest, TokenKind::Keyword(Keyword::Asc)) {
        return Ok((
            Order {
                name,
                descending: false,
            },
            rest,
        ));
    }
    if let Some(rest) = after(rest, TokenKind::Keyword(Keyword::Desc)) {
        return Ok((
            Order {
                name,
                descending: true,
            },
            rest,
        ));
    }
    Ok((
        Order {
            name,
            descending: false,
        },
        rest,
    ))
}

/// AS and a name, and what follows.
fn as_name<'a>(alloc: Global, text: &str, tokens: &'a [Token]) -> Parsed<'a, Name>
    requires stands { All (IsToken text.now) tokens.now }
    ensures { Reads (gives second (word (TokenKind.Keyword Keyword.As) then name)) itself text.now tokens.now result }
{
    let (_, rest) = word(text, tokens, TokenKind::Keyword(Keyword::As))?;
    name(alloc, text, rest)
}

/// A measure, and what follows.
#[tactic(auto, unfolding(crate::specs::ClauseGrammar::measure))]
fn measure<'a>(alloc: Global, text: &str, tokens: &'a [Token], room: usize) -> Parsed<'a, Measure>
    requires stands { All (IsToken text.now) tokens.now }
    ensures { Reads (measure room) measure_tree text.now tokens.now result }
{
    let at = place(text, tokens);
    let (expr, rest) = expr(alloc, text, tokens, room)?;
    let (name, rest) = as_name(alloc, text, rest)?;
    Ok((Measure { at, expr, name }, rest))
}

/// A definition, and what follows.
#[tactic(auto, unfolding(crate::specs::ClauseGrammar::definition))]
fn definition<'a>(
    alloc: Global,
    text: &str,
    tokens: &'a [Token],
    room: usize,
) -> Parsed<'a, Definition>
    requires stands { All (IsToken text.now) tokens.now }
    ensures { Reads (definition room) definition_tree text.now tokens.now result }
{
    let (name, rest) = name(alloc, text, tokens)?;
    let (_, rest) = word(text, rest, TokenKind::Keyword(Keyword::As))?;
    let at = place(text, rest);
    let (expr, rest) = expr(alloc, text, rest, room)?;
    Ok((Definition { name, at, expr }, rest))
}

/// A union, and what follows.
#[tactic(auto, unfolding(crate::specs::ClauseGrammar::union))]
fn union<'a>(alloc: Global, text: &str, tokens: &'a [Token], room: usize) -> Parsed<'a, Union>
    requires stands { All (IsToken text.now) tokens.now }
    ensures { Reads (union room) union_tree text.now tokens.now result }
{
    let (name, rest) = name(alloc, text, tokens)?;
    let (_, rest) = word(text, rest, TokenKind::Mark(Mark::Equals))?;
    let (_, rest) = opening(text, rest, TokenKind::Mark(Mark::LeftParenthesis), room)?;
    let (members, rest) = names(alloc, text, rest)?;
    let (_, rest) = word(text, rest, TokenKind::Mark(Mark::RightParenthesis))?;
    Ok((Union { name, members }, rest))
}

/// Names with commas between, and what follows.
fn names<'a>(alloc: Global, text: &str, tokens: &'a [Token]) -> Parsed<'a, Vec<Name>>
    requires stands { All (IsToken text.now) tokens.now }
    ensures { Reads (listed name) (λ x. x.items) text.now tokens.now result }
{
    let mut items = Vec::new(alloc);
    let mut rest = tokens;
    'items: loop {
        let (item, behind) = name(alloc, text, rest)?;
        items.push(item)?;
        match after(behind, TokenKind::Mark(Mark::Comma)) {
            Some(next) => rest = next,
            None => return Ok((items, behind)),
        }
    }
}

/// Columns to order by with commas between, and what follows.
fn orders<'a>(alloc: Global, text: &str, tokens: &'a [Token]) -> Parsed<'a, Vec<Order>>
    requires stands { All (IsToken text.now) tokens.now }
    ensures { Reads (listed order) (λ x. x.items) text.now tokens.now result }
{
    let mut items = Vec::new(alloc);
    let mut rest = tokens;
    'items: loop {
        let (item, behind) = order(alloc, text, rest)?;
        items.push(item)?;
        match after(behind, TokenKind::Mark(Mark::Comma)) {
            Some(next) => rest = next,
            None => return Ok((items, behind)),
        }
    }
}

/// Measures with commas between, and what follows.
fn measures<'a>(
    alloc: Global,
    text: &str,
    tokens: &'a [Token],
    room: usize,
) -> Parsed<'a, Vec<Measure>>
    requires stands { All (IsToken text.now) tokens.now }
    ensures { Reads (listed (measure room)) (λ x. map measure_tree x.items) text.now tokens.now result }
{
    let mut items = Vec::new(alloc);
    let mut rest = tokens;
    'items: loop {
        let (item, behind) = measure(alloc, text, rest, room)?;
        items.push(item)?;
        match after(behind, TokenKind::Mark(Mark::Comma)) {
            Some(next) => rest = next,
            None => return Ok((items, behind)),
        }
    }
}

/// Unions with commas between, and what follows.
fn unions<'a>(alloc: Global, text: &str, tokens: &'a [Token], room: usize) -> Parsed<'a, Vec<Union>>
    requires stands { All (IsToken text.now) tokens.now }
    ensures { Reads (listed (union room)) (λ x. map union_tree x.items) text.now tokens.now result }
{
    let mut items = Vec::new(alloc);
    let mut rest = tokens;
    'items: loop {
        let (item, behind) = union(alloc, text, rest, room)?;
        items.push(item)?;
        match after(behind, TokenKind::Mark(Mark::Comma)) {
            Some(next) => rest = next,
            None => return Ok((items, behind)),
        }
    }
}

/// Definitions with commas between, and what follows.
fn definitions<'a>(
    alloc: Global,
    text: &str,
    tokens: &'a [Token],
    room: usize,
) -> Parsed<'a, Vec<Definition>>
    requires stands { All (IsToken text.now) tokens.now }
    ensures { Reads (listed (definition room)) (λ x. map definition_tree x.items) text.now tokens.now result }
{
    let mut items = Vec::new(alloc);
    let mut rest = tokens;
    'items: loop {
        let (item, behind) = definition(alloc, text, rest, room)?;
        items.push(item)?;
        match after(behind, TokenKind::Mark(Mark::Comma)) {
            Some(next) => rest = next,
            None => return Ok((items, behind)),
        }
    }
}

/// Two reserved words, and what follows.
fn two_words<'a>(
    text: &str,
    tokens: &'a [Token],
    first: Keyword,
    second: Keyword,
) -> Parsed<'a, usize>
    requires stands { All (IsToken text.now) tokens.now }
    ensures { Reads (two_words first second) itself text.now tokens.now result }
{
    let (at, rest) = word(text, tokens, TokenKind::Keyword(first))?;
    let (_, rest) = word(text, rest, TokenKind::Keyword(second))?;
    Ok((at, rest))
}

/// Three reserved words, and what follows.
fn three_words<'a>(
    text: &str,
    tokens: &'a [Token],
    first: Keyword,
    second: Keyword,
    third: Keyword,
) -> Parsed<'a, usize>
    requires stands { All (IsToken text.now) tokens.now }
    ensures { Reads (three_words first second third) itself text.now tokens.now result }
{
    let (at, rest) = two_words(text, tokens, first, second)?;
    let (_, rest) = word(text, rest, TokenKind::Keyword(third))?;
    Ok((at, rest))
}

/// Three reserved words that ask for these rows, and what follows.
fn words_for<'a>(
    text: &str,
    tokens: &'a [Token],
    words: (Keyword, Keyword, Keyword),
    rows: RowsPerMatch,
) -> Parsed<'a, RowsPerMatch>
    requires stands { All (IsToken text.now) tokens.now }
    ensures { Reads (gives (λ at. rows) (three_words words.0 words.1 words.2)) itself text.now tokens.now result }
{
    let (_, rest) = three_words(text, tokens, words.0, words.1, words.2)?;
    Ok((rows, rest))
}

/// Which rows of a match and of no match are shown, and what follows.
#[tactic(auto, unfolding(crate::specs::ClauseGrammar::shown))]
fn shown<'a>(text: &str, tokens: &'a [Token]) -> Parsed<'a, RowsPerMatch>
    requires stands { All (IsToken text.now) tokens.now }
    ensures { ReadsSome shown itself text.now tokens.now result }
{
    if begins(tokens, TokenKind::Keyword(Keyword::Show)) {
        let words = (Keyword::Show, Keyword::Empty, Keyword::Matches);
        return words_for(text, tokens, words, RowsPerMatch::AllShowEmpty);
    }
    if begins(tokens, TokenKind::Keyword(Keyword::Omit)) {
        let words = (Keyword::Omit, Keyword::Empty, Keyword::Matches);
        return words_for(text, tokens, words, RowsPerMatch::AllOmitEmpty);
    }
    if begins(tokens, TokenKind::Keyword(Keyword::With)) {
        let words = (Keyword::With, Keyword::Unmatched, Keyword::Rows);
        return words_for(text, tokens, words, RowsPerMatch::AllWithUnmatched);
    }
    Ok((RowsPerMatch::AllShowEmpty, tokens))
}

/// ONE ROW PER MATCH, and what follows.
fn one_row<'a>(text: &str, tokens: &'a [Token]) -> Parsed<'a, RowsPerMatch>
    requires stands { All (IsToken text.now) tokens.now }
    ensures { Reads one_row itself text.now tokens.now result }
{
    let (_, rest) = two_words(text, tokens, Keyword::One, Keyword::Row)?;
    let (_, rest) = two_words(text, rest, Keyword::Per, Keyword::Match)?;
    Ok((RowsPerMatch::One, rest))
}

/// ALL ROWS PER MATCH with what is shown, and what follows.
fn all_rows<'a>(text: &str, tokens: &'a [Token]) -> Parsed<'a, RowsPerMatch>
    requires stands { All (IsToken text.now) tokens.now }
    ensures { Reads all_rows itself text.now tokens.now result }
{
    let (_, rest) = two_words(text, tokens, Keyword::All, Keyword::Rows)?;
    let (_, rest) = two_words(text, rest, Keyword::Per, Keyword::Match)?;
    shown(text, rest)
}

/// NEXT ROW, and what follows.
fn to_next_row<'a>(text: &str, tokens: &'a [Token]) -> Parsed<'a, Skip>
    requires stands { All (IsToken text.now) tokens.now }
    ensures { Reads (gives (λ at. Skip.ToNextRow) (two_words Keyword.Next Keyword.Row)) itself text.now tokens.now result }
{
    let (_, rest) = two_words(text, tokens, Keyword::Next, Keyword::Row)?;
    Ok((Skip::ToNextRow, rest))
}

/// The variable behind FIRST, and what follows.
fn to_first<'a>(alloc: Global, text: &str, tokens: &'a [Token]) -> Parsed<'a, Skip>
    requires stands { All (IsToken text.now) tokens.now }
    ensures { Reads (gives Skip.ToFirst name) itself text.now tokens.now result }
{
    let (variable, rest) = name(alloc, text, tokens)?;
    Ok((Skip::ToFirst(variable), rest))
}

/// The variable behind LAST or behind TO, and what follows.
fn to_last<'a>(alloc: Global, text: &str, tokens: &'a [Token]) -> Parsed<'a, Skip>
    requires stands { All (IsToken text.now) tokens.now }
    ensures { Reads (gives Skip.ToLast name) itself text.now tokens.now result }
{
    let (variable, rest) = name(alloc, text, tokens)?;
    Ok((Skip::ToLast(variable), rest))
}

/// Where a skip goes to, and what follows.
fn target<'a>(alloc: Global, text: &str, tokens: &'a [Token]) -> Parsed<'a, Skip>
    requires stands { All (IsToken text.now) tokens.now }
    ensures { Reads target itself text.now tokens.now result }
{
    if begins(tokens, TokenKind::Keyword(Keyword::Next)) {
        return to_next_row(text, tokens);
    }
    if let Some(rest) = after(tokens, TokenKind::Keyword(Keyword::First)) {
        return to_first(alloc, text, rest);
    }
    if let Some(rest) = after(tokens, TokenKind::Keyword(Keyword::Last)) {
        return to_last(alloc, text, rest);
    }
    to_last(alloc, text, tokens)
}

/// PAST LAST ROW, and what follows.
fn past_last_row<'a>(text: &str, tokens: &'a [Token]) -> Parsed<'a, Skip>
    requires stands { All (IsToken text.now) tokens.now }
    ensures { Reads (gives (λ at. Skip.PastLastRow) (three_words Keyword.Past Keyword.Last Keyword.Row)) itself
        text.now tokens.now result }
{
    let (_, rest) = three_words(text, tokens, Keyword::Past, Keyword::Last, Keyword::Row)?;
    Ok((Skip::PastLastRow, rest))
}

/// TO with where it goes to, and what follows.
fn to_target<'a>(alloc: Global, text: &str, tokens: &'a [Token]) -> Parsed<'a, Skip>
    requires stands { All (IsToken text.now) tokens.now }
    ensures { Reads (gives second (word (TokenKind.Keyword Keyword.To) then target)) itself text.now tokens.now result }
{
    let (_, rest) = word(text, tokens, TokenKind::Keyword(Keyword::To))?;
    target(alloc, text, rest)
}

/// AFTER MATCH SKIP with where it goes to, and what follows.
#[tactic(auto, unfolding(crate::specs::ClauseGrammar::skip))]
fn skip<'a>(alloc: Global, text: &str, tokens: &'a [Token]) -> Parsed<'a, Skip>
    requires stands { All (IsToken text.now) tokens.now }
    ensures { Reads skip itself text.now tokens.now result }
{
    let (_, rest) = three_words(text, tokens, Keyword::After, Keyword::Match, Keyword::Skip)?;
    if begins(rest, TokenKind::Keyword(Keyword::Past)) {
        return past_last_row(text, rest);
    }
    to_target(alloc, text, rest)
}

/// Perhaps PARTITION BY, and what follows.
#[tactic(auto, unfolding(crate::specs::ClauseGrammar::partition_part))]
fn partition_part<'a>(alloc: Global, text: &str, tokens: &'a [Token]) -> Parsed<'a, Vec<Name>>
    requires stands { All (IsToken text.now) tokens.now }
    ensures { ReadsSome partition_part (λ x. x.items) text.now tokens.now result }
{
    if !begins(tokens, TokenKind::Keyword(Keyword::Partition)) {
        return Ok((Vec::new(alloc), tokens));
    }
    let (_, rest) = two_words(text, tokens, Keyword::Partition, Keyword::By)?;
    names(alloc, text, rest)
}

/// Perhaps ORDER BY, and what follows.
#[tactic(auto, unfolding(crate::specs::ClauseGrammar::order_part))]
fn order_part<'a>(alloc: Global, text: &str, tokens: &'a [Token]) -> Parsed<'a, Vec<Order>>
    requires stands { All (IsToken text.now) tokens.now }
    ensures { ReadsSome order_part (λ x. x.items) text.now tokens.now result }
{
    if !begins(tokens, TokenKind::Keyword(Keyword::Order)) {
        return Ok((Vec::new(alloc), tokens));
    }
    let (_, rest) = two_words(text, tokens, Keyword::Order, Keyword::By)?;
    orders(alloc, text, rest)
}

/// Perhaps MEASURES, and what follows.
#[tactic(auto, unfolding(crate::specs::ClauseGrammar::measures_part))]
fn measures_part<'a>(
    alloc: Global,
    text: &str,
    tokens: &'a [Token],
    room: usize,
) -> Parsed<'a, Vec<Measure>>
    requires stands { All (IsToken text.now) tokens.now }
    ensures { ReadsSome (measures_part room) (λ x. map measure_tree x.items) text.now tokens.now result }
{
    match after(tokens, TokenKind::Keyword(Keyword::Measures)) {
        Some(rest) => measures(alloc, text, rest, room),
        None => Ok((Vec::new(alloc), tokens)),
    }
}

/// Perhaps SUBSET, and what follows.
#[tactic(auto, unfolding(crate::specs::ClauseGrammar::subset_part))]
fn subset_part<'a>(
    alloc: Global,
    text: &str,
    tokens: &'a [Token],
    room: usize,
) -> Parsed<'a, Vec<Union>>
    requires stands { All (IsToken text.now) tokens.now }
    ensures { ReadsSome (subset_part room) (λ x. map union_tree x.items) text.now tokens.now result }
{
    match after(tokens, TokenKind::Keyword(Keyword::Subset)) {
        Some(rest) => unions(alloc, text, rest, room),
        None => Ok((Vec::new(alloc), tokens)),
    }
}

/// DEFINE, and what follows.
#[tactic(auto, unfolding(crate::specs::ClauseGrammar::define_part))]
fn define_part<'a>(
    alloc: Global,
    text: &str,
    tokens: &'a [Token],
    room: usize,
) -> Parsed<'a, Vec<Definition>>
    requires stands { All (IsToken text.now) tokens.now }
    ensures { Reads (define_part room) (λ x. map definition_tree x.items) text.now tokens.now result }
{
    let (_, rest) = word(text, tokens, TokenKind::Keyword(Keyword::Define))?;
    definitions(alloc, text, rest, room)
}

/// PATTERN, and what follows.
#[tactic(auto, unfolding(crate::specs::ClauseGrammar::pattern_part))]
fn pattern_part<'a>(
    alloc: Global,
    text: &str,
    tokens: &'a [Token],
    room: usize,
) -> Parsed<'a, Pattern>
    requires stands { All (IsToken text.now) tokens.now }
    ensures { Reads (pattern_part room) tree_of text.now tokens.now result }
{
    let (_, rest) = word(text, tokens, TokenKind::Keyword(Keyword::Pattern))?;
    let (_, rest) = opening(text, rest, TokenKind::Mark(Mark::LeftParenthesis), room)?;
    let (pattern, rest) = inner_pattern(alloc, text, rest, room)?;
    let (_, rest) = word(text, rest, TokenKind::Mark(Mark::RightParenthesis))?;
    Ok((pattern, rest))
}

/// Perhaps the rows per match, and what follows.
#[tactic(auto, unfolding(crate::specs::ClauseGrammar::rows_part, crate::specs::ClauseGrammar::rows))]
fn rows_part<'a>(text: &str, tokens: &'a [Token]) -> Parsed<'a, RowsPerMatch>
    requires stands { All (IsToken text.now) tokens.now }
    ensures { ReadsSome rows_part itself text.now tokens.now result }
{
    if begins(tokens, TokenKind::Keyword(Keyword::One)) {
        return one_row(text, tokens);
    }
    if begins(tokens, TokenKind::Keyword(Keyword::All)) {
        return all_rows(text, tokens);
    }
    Ok((RowsPerMatch::One, tokens))
}

/// Perhaps a skip, and what follows.
#[tactic(auto, unfolding(crate::specs::ClauseGrammar::skip_part, crate::specs::ClauseGrammar::skip))]
fn skip_part<'a>(alloc: Global, text: &str, tokens: &'a [Token]) -> Parsed<'a, Skip>
    requires stands { All (IsToken text.now) tokens.now }
    ensures { ReadsSome skip_part itself text.now tokens.now result }
{
    if !begins(tokens, TokenKind::Keyword(Keyword::After)) {
        return Ok((Skip::PastLastRow, tokens));
    }
    skip(alloc, text, tokens)
}

/// Perhaps a skip, PATTERN, perhaps SUBSET, and DEFINE, and what follows.
fn later_parts<'a>(
    alloc: Global,
    text: &str,
    tokens: &'a [Token],
    room: usize,
) -> Parsed<'a, (Skip, Pattern, Vec<Union>, Vec<Definition>)>
    requires stands { All (IsToken text.now) tokens.now }
    ensures { Reads (later_parts room) (λ x. later_trees x.0 x.1 x.2.items x.3.items) text.now tokens.now result }
{
    let (skip, rest) = skip_part(alloc, text, tokens)?;
    let (pattern, rest) = pattern_part(alloc, text, rest, room)?;
    let (subsets, rest) = subset_part(alloc, text, rest, room)?;
    let (definitions, rest) = define_part(alloc, text, rest, room)?;
    Ok(((skip, pattern, subsets, definitions), rest))
}

/// A copy of the text.
fn copied(alloc: Global, text: &str) -> Result<Text, AllocError>
    ensures { IfOk result (λ copy. copy ≡ text.now) }
{
    Text::new(alloc, String::from_str(alloc, text)?)
}

/// The parts of a clause in their order, and what follows.
#[tactic(auto, unfolding(crate::specs::ClauseGrammar::body))]
fn body<'a>(alloc: Global, text: &str, tokens: &'a [Token], room: usize) -> Parsed<'a, Clause>
    requires stands { All (IsToken text.now) tokens.now }
    ensures reads { Reads (body room) clause_tree text.now tokens.now result }
    ensures text { IfOk result (λ x. x.0.text ≡ text.now) }
{
    let copy = copied(alloc, text)?;
    let (partition, rest) = partition_part(alloc, text, tokens)?;
    let (order, rest) = order_part(alloc, text, rest)?;
    let (measures, rest) = measures_part(alloc, text, rest, room)?;
    let (rows, rest) = rows_part(text, rest)?;
    let (later, rest) = later_parts(alloc, text, rest, room)?;
    let (skip, pattern, subsets, definitions) = later;
    let clause = Clause {
        text: copy,
        partition,
        order,
        measures,
        rows,
        skip,
        pattern,
        subsets,
        definitions,
    };
    Ok((clause, rest))
}

/// The parts of a clause between brackets, and what follows.
fn bracketed<'a>(alloc: Global, text: &str, tokens: &'a [Token]) -> Parsed<'a, Clause>
    requires stands { All (IsToken text.now) tokens.now }
    ensures reads { Reads bracketed clause_tree text.now tokens.now result }
    ensures text { IfOk result (λ x. x.0.text ≡ text.now) }
{
    let (_, rest) = opening(
        text,
        tokens,
        TokenKind::Mark(Mark::LeftParenthesis),
        MAX_OPEN,
    )?;
    let (clause, rest) = body(alloc, text, rest, MAX_OPEN - 1)?;
    let (_, rest) = word(text, rest, TokenKind::Mark(Mark::RightParenthesis))?;
    Ok((clause, rest))
}

/// A clause, and what follows.
fn clause<'a>(alloc: Global, text: &str, tokens: &'a [Token]) -> Parsed<'a, Clause>
    requires stands { All (IsToken text.now) tokens.now }
    ensures reads { Reads clause clause_tree text.now tokens.now result }
    ensures text { IfOk result (λ x. x.0.text ≡ text.now) }
{
    match after(tokens, TokenKind::Keyword(Keyword::MatchRecognize)) {
        Some(rest) => bracketed(alloc, text, rest),
        None => body(alloc, text, tokens, MAX_OPEN),
    }
}

/// The clause that the tokens of the text derive.
///
/// `Expected` comes at the first token with which those before it begin no clause, or at the end of the text where it
/// ends too early; `Deep` at a `(` or `{-` that would be the 101st open one. The first of the two in the text is told. So
/// in `PATTERN (A)` a `DEFINE` is expected at 11. The text is copied into the clause.
pub fn parse(alloc: Global, text: &str, tokens: &[Token]) -> Result<Clause, ParseFault>
    requires stands { All (IsToken text.now) tokens.now }
    ensures text { IfOk result (λ clause. clause.text ≡ text.now) }
    ensures derived { IfOk result (λ clause. Derives text.now tokens.now (clause_tree clause)) }
    ensures only { IfOk result (λ clause. DerivesOnly text.now tokens.now (clause_tree clause)) }
    ensures refused { IfErr result
        (λ fault. fault ≢ ParseFault.OutOfMemory → DerivesNone text.now tokens.now) }
    // It is the start of one of the tokens, or the length of the text.
    ensures offset { IfErr result (λ fault. IsFaultIn text.now tokens.now fault) }
{
    let (clause, rest) = clause(alloc, text, tokens)?;
    if !rest.is_empty() {
        return Err(ParseFault::Expected(place(text, rest)));
    }
    Ok(clause)
}
