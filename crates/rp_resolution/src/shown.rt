//! What CLASSIFIER gives, the places of definitions, and the reach.

ghost use Rattle.std.specs.Prelude.{◌≡◌, map, max, IfOk};
ghost use Rattle.std.specs.List.{position};
ghost use Rattle.rp_value.specs.declared.value.Value.TheVariants as value;
ghost use Rattle.rp_tree.specs.Clauses.{definition_tree};
ghost use Rattle.rp_resolution.specs.Queries.{definition_place, greatest};
ghost use Rattle.rp_query.specs.Reach.{reach, condition_reach, rows_back};
ghost use Rattle.rp_resolution.specs.Context.{is_name};

use rp_query::{Condition, Expr, Step};
use rp_tree::Definition;
use rp_value::{Text, Value};
use std::alloc::{AllocError, Global};

/// What CLASSIFIER gives for each pattern variable.
pub fn classes(alloc: Global, variables: &[Text]) -> Result<Vec<Value>, AllocError>
    ensures { IfOk result (λ vs. vs.items ≡ map value.Text variables.now) }
{
    let mut classes = Vec::new(alloc);
    for name in variables {
        let name = name.share()?;
        classes.push(Value::Text(name))?;
    }
    Ok(classes)
}

/// The first of these definitions with the name.
fn place_of_definition(name: &Text, definitions: &[Definition]) -> Option<usize>
    ensures { result ≡ position (λ d. is_name name.now d.name.text) definitions.now }
{
    definitions
        .iter()
        .position(|definition| definition.name.text == *name)
}

/// The place of a variable's definition.
fn definition_place(name: &Text, definitions: &[Definition]) -> Option<usize>
    ensures { result ≡ definition_place (map definition_tree definitions.now) name.now }
{
    place_of_definition(name, definitions)
}

/// The place of each variable's definition.
pub fn definition_places(
    alloc: Global,
    variables: &[Text],
    definitions: &[Definition],
) -> Result<Vec<Option<usize>>, AllocError>
    ensures { IfOk result
        (λ ps. ps.items ≡ map (definition_place (map definition_tree definitions.now)) variables.now) }
{
    let mut places = Vec::new(alloc);
    for name in variables {
        places.push(definition_place(name, definitions))?;
    }
    Ok(places)
}

fn rows_back(step: Step) -> u64
    ensures { result ≡ rows_back step }
{
    match step {
        Step::Back(rows) => rows,
        Step::Ahead(_) => 0,
    }
}

/// How many rows back an expression looks from the rows of its match.
fn reach_of(expr: &Expr) -> u64
    ensures { result ≡ reach expr.now }
{
    match expr {
        Expr::Navigation(navigation) => rows_back(navigation.step),
        Expr::Arithmetic(_, left, right) => reach_of(&**left).max(reach_of(&**right)),
        Expr::Literal(_) | Expr::Aggregate { .. } | Expr::MatchNumber | Expr::Classifier(_) => 0,
    }
}

fn condition_reach_of(condition: &Condition) -> u64
    ensures { result ≡ condition_reach condition.now }
{
    match condition {
        Condition::Compare(_, left, right) => reach_of(left).max(reach_of(right)),
        Condition::IsNull(expr) => reach_of(expr),
        Condition::Not(body) => condition_reach_of(&**body),
        Condition::And(left, right) => {
            condition_reach_of(&**left).max(condition_reach_of(&**right))
        }
        Condition::Or(left, right) => {
            condition_reach_of(&**left).max(condition_reach_of(&**right))
        }
    }
}

/// The greatest reach of these measures.
fn reach_of_all(exprs: &[Expr]) -> u64
    ensures { result ≡ greatest (map reach exprs.now) }
{
    let mut most = 0u64;
    for expr in exprs {
        most = most.max(reach_of(expr));
    }
    most
}

/// The greatest reach of these conditions.
fn condition_reach_of_all(conditions: &[Condition]) -> u64
    ensures { result ≡ greatest (map condition_reach conditions.now) }
{
    let mut most = 0u64;
    for condition in conditions {
        most = most.max(condition_reach_of(condition));
    }
    most
}

/// The greatest reach of measures and conditions.
pub fn whole_reach(measures: &[Expr], conditions: &[Condition]) -> u64
    ensures { result ≡ max (greatest (map reach measures.now)) (greatest (map condition_reach conditions.now)) }
{
    reach_of_all(measures).max(condition_reach_of_all(conditions))
}
