//! Whether conditions look ahead: at rows after those that they go from.
ghost use Rattle.std.specs.Prelude.{◌≡◌, ◌↔◌, IsTrue};
ghost use Rattle.rp_query.specs.Definitions.{definition_of};
ghost use Rattle.rp_query.specs.Formulas.{value_formula, condition_formula};
ghost use Rattle.rp_query.specs.LooksBack.{ConditionsLookBack, goes_back, looks_back, looks_back_where_defined};

use crate::plan::{Condition, Expr, Step};
use crate::query::Plan;

impl Plan {
    /// Whether no condition of DEFINE looks at a row after one that it goes from.
    pub(crate) fn looks_back(&self) -> bool
        ensures { IsTrue result ↔ ConditionsLookBack self.now }
    {
        for variable in 0..self.definitions.len() {
            if !variable_looks_back(self, variable) {
                return false;
            }
        }
        true
    }
}

fn variable_looks_back(plan: &Plan, variable: usize) -> bool
    ensures { result ≡ looks_back_where_defined (definition_of plan.now variable) }
{
    match plan.definition(variable) {
        None => true,
        Some(condition) => condition_looks_back(condition),
    }
}

fn condition_looks_back(condition: &Condition) -> bool
    ensures { result ≡ looks_back (condition_formula condition.now) }
{
    match condition {
        Condition::Compare(_, left, right) => expr_looks_back(left) && expr_looks_back(right),
        Condition::IsNull(operand) => expr_looks_back(operand),
        Condition::Not(inner) => condition_looks_back(&**inner),
        Condition::And(left, right) => {
            condition_looks_back(&**left) && condition_looks_back(&**right)
        }
        Condition::Or(left, right) => {
            condition_looks_back(&**left) && condition_looks_back(&**right)
        }
    }
}

fn expr_looks_back(expr: &Expr) -> bool
    ensures { result ≡ looks_back (value_formula expr.now) }
{
    match expr {
        Expr::Navigation(navigation) => goes_back(navigation.step),
        Expr::Arithmetic(_, left, right) => expr_looks_back(&**left) && expr_looks_back(&**right),
        Expr::Literal(_) | Expr::Aggregate { .. } | Expr::MatchNumber | Expr::Classifier(_) => true,
    }
}

fn goes_back(step: Step) -> bool
    ensures { result ≡ goes_back step }
{
    match step {
        Step::Back(_) => true,
        Step::Ahead(rows) => rows == 0,
    }
}
