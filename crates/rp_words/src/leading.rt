//! The variable that a pattern's words begin with.
ghost use Rattle.std.specs.Prelude.{◌≡◌};
ghost use Rattle.rp_words.specs.Leading.{leads, leads_before, stands_once, stands_where, iterates_once};

use crate::form::Form;

impl Form {
    /// Whether it is known that each of its words that takes a row begins with one of this variable.
    pub fn leads(&self, variable: usize) -> bool
        ensures { result ≡ leads variable self.now }
    {
        self.leads_before(variable, true)
    }

    /// Whether it is known that each of its words maps one row at most to this variable.
    pub fn stands_once(&self, variable: usize) -> bool
        ensures { result ≡ stands_once variable self.now }
    {
        self.stands_where(variable, true)
    }

    /// The same of its words and what follows them, of which it is known or not.
    fn leads_before(&self, variable: usize, rest: bool) -> bool
        ensures { result ≡ leads_before variable self.now rest }
    {
        match self {
            Form::Variable(v) => *v == variable,
            Form::Empty | Form::PartitionStart | Form::PartitionEnd => rest,
            Form::Concatenation(first, second) => {
                let rest = second.leads_before(variable, rest);
                first.leads_before(variable, rest)
            }
            Form::Alternation(first, second) => {
                first.leads_before(variable, rest) && second.leads_before(variable, rest)
            }
            Form::Permute(parts) => {
                if !rest {
                    return false;
                }
                for part in parts {
                    if !part.leads_before(variable, true) {
                        return false;
                    }
                }
                true
            }
            Form::Exclusion(body) => body.leads_before(variable, rest),
            Form::Quantified { body, lower, .. } => {
                body.leads_before(variable, rest) && (rest || *lower > 0)
            }
        }
    }

    /// Whether it is known that each of its words maps one row at most to this variable, where it may, or none.
    fn stands_where(&self, variable: usize, may: bool) -> bool
        ensures { result ≡ stands_where variable self.now may }
    {
        match self {
            Form::Variable(v) => may || *v != variable,
            Form::Empty | Form::PartitionStart | Form::PartitionEnd => true,
            Form::Concatenation(first, second) => {
                first.stands_where(variable, may) && second.stands_where(variable, false)
                    || first.stands_where(variable, false) && second.stands_where(variable, may)
            }
            Form::Alternation(first, second) => {
                first.stands_where(variable, may) && second.stands_where(variable, may)
            }
            Form::Permute(parts) => {
                for part in parts {
                    if !part.stands_where(variable, false) {
                        return false;
                    }
                }
                true
            }
            Form::Exclusion(body) => body.stands_where(variable, may),
            Form::Quantified {
                body,
                lower,
                upper,
                ..
            } => {
                body.stands_where(variable, false)
                    || body.stands_where(variable, may) && iterates_once(*lower, *upper)
            }
        }
    }
}

/// Whether a quantifier with these bounds iterates once at most.
fn iterates_once(lower: u32, upper: Option<u32>) -> bool
    ensures { result ≡ iterates_once lower upper }
{
    match upper {
        None => false,
        Some(upper) => lower <= 1 && upper <= 1,
    }
}
