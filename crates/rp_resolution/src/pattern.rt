//! The pattern of a clause, its variables numbered by first appearance.

ghost use Rattle.std.specs.Prelude.{◌≡◌, true, length, map, [], ◌≤◌, ◌<◌, ◌&&◌, IfOk, IfErr, IfSome, option_map};
ghost use Rattle.std.specs.List.{position};
ghost use Rattle.rp_words.specs.Bounds.{is_allowed, bounds_hold};
ghost use Rattle.rp_words.specs.Variables.{all_true};
ghost use Rattle.rp_tree.specs.Tree.{tree_of};
ghost use Rattle.rp_tree.specs.Tree as tree;
ghost use Rattle.rp_resolution.specs.PartFaults.{pattern_faults, quantifier_faults, first_exclusion, unmatched_faults};
ghost use Rattle.rp_resolution.specs.Variables.{number_of};
ghost use Rattle.rp_same_query.specs.Shapes as shape;
ghost use Rattle.rp_same_query.specs.Shapes.{shape_of};
ghost use Rattle.rp_resolution.specs.Joints.{tree_joint, shape_joint};
ghost use Rattle.rp_resolution.specs.Reading.{Reads, ReadsAll, all_faults, exclusion_among, one_at_least};
ghost use Rattle.rp_resolution.specs.Context.{is_name};
ghost use Rattle.rp_resolution.specs.Checked.{FirstFaultOr};

use crate::fault::{CheckFault, CheckKind};
use crate::place::{fault, require};
use rp_grammar::Name;
use rp_tree::{Bound, Pattern as Written, Quantifier, RowsPerMatch};
use rp_value::Text;
use rp_words::Form;
use std::alloc::{AllocError, Global};
use std::rc::Rc;

/// The greatest bound of a quantifier.
const MAX_BOUND: u64 = 1000;

/// The most parts of a PERMUTE.
const MAX_PARTS: usize = 8;

/// The place of the name among these, from 0.
fn place_of(name: &Text, names: &[Text]) -> Option<usize>
    ensures place { result ≡ position (λ other. is_name name.now other) names.now }
    ensures bound { IfSome result (λ k. k < length names.now) }
{
    names.iter().position(|other| *other == *name)
}

/// How many names stand before this one: all, where it isn't there.
pub(crate) fn number_of(name: &Text, names: &[Text]) -> usize
    ensures number { result ≡ number_of name.now names.now }
    ensures within { result ≤ length names.now }
{
    place_of(name, names).unwrap_or(names.len())
}

/// A variable, whose name is put behind those before it where it isn't among them.
fn variable(names: &mut Vec<Text>, name: &Name) -> Result<Form, CheckFault>
    ensures { FirstFaultOr [] (Reads names.old.items (tree.Variable name.now) names.new.items) result }
{
    let number = number_of(&name.text, names.as_slice());
    if number < names.len() {
        return Ok(Form::Variable(number));
    }
    let text = name.text.share()?;
    names.push(text)?;
    Ok(Form::Variable(number))
}

/// How parts are joined.
#[derive(Clone, Copy)]
pub(crate) enum Joint {
    Concatenation,
    Alternation,
}

/// Two parts, joined.
fn join(alloc: Global, joint: Joint, first: Form, second: Form) -> Result<Form, AllocError>
    ensures shape { IfOk result (λ f. shape_of f ≡ shape_joint joint (shape_of first) (shape_of second)) }
    ensures allowed { IfOk result (λ f. is_allowed f ≡ (is_allowed first && is_allowed second)) }
{
    let first = Rc::new(alloc, first)?;
    let second = Rc::new(alloc, second)?;
    match joint {
        Joint::Concatenation => Ok(Form::Concatenation(first, second)),
        Joint::Alternation => Ok(Form::Alternation(first, second)),
    }
}

/// The parts joined from the right.
fn join_all(alloc: Global, joint: Joint, parts: Vec<Form>) -> Result<Form, CheckFault>
    ensures shape { IfOk result (λ f. shape_of f ≡ shape.joined_all (shape_joint joint) (map shape_of parts.items)) }
    ensures allowed { IfOk result (λ f. all_true (map is_allowed parts.items) ≡ true → is_allowed f ≡ true) }
    ensures refused { IfErr result (λ e. e ≡ CheckFault.OutOfMemory) }
{
    let mut parts = parts;
    let Some(mut last) = parts.pop() else {
        return Ok(Form::Empty);
    };
    while let Some(part) = parts.pop() {
        last = join(alloc, joint, part, last)?;
    }
    Ok(last)
}

/// A further owner for each part.
fn owned(alloc: Global, parts: Vec<Form>) -> Result<Vec<Rc<Form>>, AllocError>
    ensures { IfOk result (λ rs. map (λ r. r.value) rs.items ≡ parts.items) }
{
    let mut owners = Vec::new(alloc);
    for part in parts {
        owners.push(Rc::new(alloc, part)?)?;
    }
    Ok(owners)
}

/// The parts, or the empty pattern where there are none.
fn one_at_least(parts: Vec<Form>) -> Result<Vec<Form>, AllocError>
    ensures { IfOk result (λ ps. ps.items ≡ one_at_least parts.items) }
{
    let mut parts = parts;
    if parts.is_empty() {
        parts.push(Form::Empty)?;
    }
    Ok(parts)
}

/// The parts in any order. PERMUTE of nothing is that of the empty pattern.
fn in_any_order(alloc: Global, parts: Vec<Form>) -> Result<Form, CheckFault>
    requires { length parts.items ≤ 8 }
    ensures shape { IfOk result
        (λ f. shape_of f ≡ shape.Permute (shape.joined_all shape.Beside (map shape_of parts.items))) }
    ensures allowed { IfOk result (λ f. all_true (map is_allowed parts.items) ≡ true → is_allowed f ≡ true) }
    ensures refused { IfErr result (λ e. e ≡ CheckFault.OutOfMemory) }
{
    let some = one_at_least(parts)?;
    let owners = owned(alloc, some)?;
    Ok(Form::Permute(owners))
}

fn hidden(alloc: Global, body: Form) -> Result<Form, CheckFault>
    ensures shape { IfOk result (λ f. shape_of f ≡ shape.Exclusion (shape_of body)) }
    ensures allowed { IfOk result (λ f. is_allowed f ≡ is_allowed body) }
    ensures refused { IfErr result (λ e. e ≡ CheckFault.OutOfMemory) }
{
    let body = Rc::new(alloc, body)?;
    Ok(Form::Exclusion(body))
}

/// Whether a quantifier may have these bounds.
fn bounds_hold(lower: u64, upper: Option<Bound>) -> bool
    ensures { result ≡ bounds_hold lower (option_map (λ b. b.count) upper) }
{
    match upper {
        None => lower <= MAX_BOUND,
        Some(upper) => lower <= upper.count && upper.count <= MAX_BOUND,
    }
}

/// The body again and again.
fn repeated(alloc: Global, body: Form, quantifier: Quantifier) -> Result<Form, CheckFault>
    requires { bounds_hold quantifier.lower.count (option_map (λ b. b.count) quantifier.upper) ≡ true }
    ensures shape { let upper = option_map (λ b. b.count) quantifier.upper in IfOk result
        (λ f. shape_of f ≡ shape.Quantified (shape_of body) quantifier.lower.count upper quantifier.reluctant) }
    ensures allowed { IfOk result (λ f. is_allowed f ≡ is_allowed body) }
    ensures refused { IfErr result (λ e. e ≡ CheckFault.OutOfMemory) }
{
    let body = Rc::new(alloc, body)?;
    let reluctant = quantifier.reluctant;
    match quantifier.upper {
        None => Ok(Form::Quantified {
            body,
            lower: quantifier.lower.count as u32,
            upper: None,
            reluctant,
        }),
        Some(upper) => Ok(Form::Quantified {
            body,
            lower: quantifier.lower.count as u32,
            upper: Some(upper.count as u32),
            reluctant,
        }),
    }
}

#[cycle(read)]
fn read_all(
    alloc: Global,
    names: &mut Vec<Text>,
    parts: &[Written],
) -> Result<Vec<Form>, CheckFault>
    ensures { FirstFaultOr (all_faults (map tree_of parts.now))
        (λ fs. ReadsAll names.old.items (map tree_of parts.now) names.new.items fs.items) result }
{
    let mut forms = Vec::new(alloc);
    for part in parts {
        let form = read(alloc, names, part)?;
        forms.push(form)?;
    }
    Ok(forms)
}

#[cycle(read)]
fn joined(
    alloc: Global,
    names: &mut Vec<Text>,
    joint: Joint,
    parts: &[Written],
) -> Result<Form, CheckFault>
    ensures { let whole = tree.joined_all (tree_joint joint) (map tree_of parts.now) in
        FirstFaultOr (pattern_faults whole) (Reads names.old.items whole names.new.items) result }
{
    let forms = read_all(alloc, names, parts)?;
    join_all(alloc, joint, forms)
}

#[cycle(read)]
fn permutation(
    alloc: Global,
    names: &mut Vec<Text>,
    at: usize,
    parts: &[Written],
) -> Result<Form, CheckFault>
    ensures { let whole = tree.Permute at (tree.joined_all tree.Beside (map tree_of parts.now)) in
        FirstFaultOr (pattern_faults whole) (Reads names.old.items whole names.new.items) result }
{
    require(parts.len() <= MAX_PARTS, CheckKind::TooManyPermuted, at)?;
    let forms = read_all(alloc, names, parts)?;
    in_any_order(alloc, forms)
}

#[cycle(read)]
fn exclusion(
    alloc: Global,
    names: &mut Vec<Text>,
    at: usize,
    body: &Written,
) -> Result<Form, CheckFault>
    ensures { let whole = tree.Exclusion at (tree_of body.now) in
        FirstFaultOr (pattern_faults whole) (Reads names.old.items whole names.new.items) result }
{
    let body = read(alloc, names, body)?;
    hidden(alloc, body)
}

#[cycle(read)]
fn quantified(
    alloc: Global,
    names: &mut Vec<Text>,
    body: &Written,
    quantifier: Quantifier,
) -> Result<Form, CheckFault>
    ensures { let whole = tree.Quantified quantifier (tree_of body.now) in
        FirstFaultOr (pattern_faults whole) (Reads names.old.items whole names.new.items) result }
{
    let body = read(alloc, names, body)?;
    let holds = bounds_hold(quantifier.lower.count, quantifier.upper);
    require(holds, CheckKind::BadBounds, quantifier.at)?;
    repeated(alloc, body, quantifier)
}

/// The form of a pattern, or its first fault. The names of its variables are put behind those before it.
#[cycle(read)]
pub fn read(alloc: Global, names: &mut Vec<Text>, pattern: &Written) -> Result<Form, CheckFault>
    ensures { FirstFaultOr (pattern_faults (tree_of pattern.now))
        (Reads names.old.items (tree_of pattern.now) names.new.items) result }
{
    match pattern {
        Written::Variable(name) => variable(names, name),
        Written::Empty => Ok(Form::Empty),
        Written::PartitionStart => Ok(Form::PartitionStart),
        Written::PartitionEnd => Ok(Form::PartitionEnd),
        Written::Concatenation(parts) => joined(
            alloc,
            names,
            Joint::Concatenation,
            parts.as_slice(),
        ),
        Written::Alternation(parts) => joined(alloc, names, Joint::Alternation, parts.as_slice()),
        Written::Permute { at, parts } => permutation(alloc, names, *at, parts.as_slice()),
        Written::Exclusion { at, body } => exclusion(alloc, names, *at, &**body),
        Written::Quantified { body, quantifier } => quantified(alloc, names, &**body, *quantifier),
    }
}

#[cycle(exclusion)]
fn exclusion_among(parts: &[Written]) -> Option<usize>
    ensures { result ≡ exclusion_among (map tree_of parts.now) }
{
    for part in parts {
        if let Some(at) = first_exclusion(part) {
            return Some(at);
        }
    }
    None
}

/// Where the first `{-` stands.
#[cycle(exclusion)]
fn first_exclusion(pattern: &Written) -> Option<usize>
    ensures { result ≡ first_exclusion (tree_of pattern.now) }
{
    match pattern {
        Written::Variable(_) => None,
        Written::Empty | Written::PartitionStart | Written::PartitionEnd => None,
        Written::Concatenation(parts) => exclusion_among(parts.as_slice()),
        Written::Alternation(parts) => exclusion_among(parts.as_slice()),
        Written::Permute { parts, .. } => exclusion_among(parts.as_slice()),
        Written::Exclusion { at, .. } => Some(*at),
        Written::Quantified { body, .. } => first_exclusion(&**body),
    }
}

/// Rows that no match has aren't given beside rows that aren't shown.
pub fn allow_unmatched(rows: RowsPerMatch, pattern: &Written) -> Result<(), CheckFault>
    ensures { FirstFaultOr (unmatched_faults rows (tree_of pattern.now)) (λ u. Unit {0}) result }
{
    match rows {
        RowsPerMatch::One => Ok(()),
        RowsPerMatch::AllShowEmpty => Ok(()),
        RowsPerMatch::AllOmitEmpty => Ok(()),
        RowsPerMatch::AllWithUnmatched => match first_exclusion(pattern) {
            None => Ok(()),
            Some(at) => Err(fault(CheckKind::ExclusionWithUnmatched, at)),
        },
    }
}
