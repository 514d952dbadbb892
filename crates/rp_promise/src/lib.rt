//! The promise of nodes, said of the text of a clause.
//!
//! A node that is a process of its own compiles the clause for itself, and so does one that goes on in another process after a
//! restart. So what nodes come to is said of the text and of the table's columns, and of no query: `specs/Promise`.
#![tactic(auto)]

ghost use Rattle.std.specs.Prelude.{List};
ghost use Rattle.rp_value.specs.declared.value.Value.{Value};
ghost use Rattle.rp_promise.specs.Promise.{AnswersAreOne, BothGiveFronts, CallsAreByText};

use rp_compile::law_compiled;
use rp_schedules::{law_same_query, law_schedules};

/// The text of a clause has one answer on a whole partition. In whatever order rows come in, what is lost, repeated or refused, and
/// whenever nodes are saved and restarted, each call by a query of its own that was compiled from the text: what any two nodes have
/// given of a partition are first items of that one answer, each with its place, and all of them where a node holds all rows and the
/// close and a poll is idle.
pub fn law_promise()
    ensures one_answer { AnswersAreOne }
    ensures both { BothGiveFronts (List Value) }
    ensures calls { CallsAreByText (List Value) }
{
    law_compiled();
    law_schedules();
    law_same_query();
}
