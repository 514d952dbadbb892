//! Sets of variables, as numbers, and the variables of a PERMUTE.
ghost use Rattle.std.specs.Prelude.{◌≡◌, ◌≤◌, ◌<◌, length, map, IfOk, IfSome};
ghost use Rattle.rp_words.specs.declared.form.Form.TheVariants.{Variable};
ghost use Rattle.rp_program.specs.Sets.{sets, in_set};

use rp_words::{Form, MAX_PARTS};
use std::alloc::{AllocError, Global};
use std::rc::Rc;

/// How many sets there are of so many things.
pub(crate) fn sets(things: usize) -> usize
    requires { things ≤ MAX_PARTS }
    ensures { result ≡ sets things }
{
    let mut all = 1;
    for _thing in 0..things {
        all += all;
    }
    all
}

/// How many variables are in the set with this number.
pub(crate) fn set_size(vars: &[usize], number: usize) -> usize
    requires { length vars.now ≤ MAX_PARTS }
    ensures count { result ≡ length (in_set vars.now number) }
    ensures few { result ≤ length vars.now }
{
    let Some((_, rest)) = vars.split_first() else {
        return 0;
    };
    let without = sets(rest.len());
    if number < without {
        return set_size(rest, number);
    }
    1 + set_size(rest, number - without)
}

/// The variable of a form that is one.
fn variable_of(form: &Form) -> Option<usize>
    ensures { IfSome result (λ v. form.now ≡ Variable v) }
{
    match form {
        Form::Variable(var) => Some(*var),
        _ => None,
    }
}

/// The variables of parts that are variables each. None where a part is another, and where there is no part.
pub(crate) fn variables(alloc: Global, parts: &[Rc<Form>]) -> Result<Option<Vec<usize>>, AllocError>
    ensures { IfOk result (λ vars. IfSome vars (λ vs.
        (map Variable vs.items ≡ map (λ p. p.value) parts.now) × (0 < length vs.items))) }
{
    if parts.is_empty() {
        return Ok(None);
    }
    let mut vars = Vec::new(alloc);
    for part in parts {
        let Some(var) = variable_of(part) else {
            return Ok(None);
        };
        vars.push(var)?;
    }
    Ok(Some(vars))
}
