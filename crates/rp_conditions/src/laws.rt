//! Laws of a query's conditions as tests of a search: over rows that go on, and where they judge a row alone.
//! A call does nothing, and its caller may then use them.
ghost use Rattle.rp_conditions.specs.Locality.{LedAreTestedAlone, RowsAreTestedAlone, SpansAreTestedAlone};
ghost use Rattle.rp_conditions.specs.Outlives.{TestsGoOn};

use rp_eval::{law_conditions, law_locality};

/// The law of tests by conditions: over rows that go on they extend the ones before, whatever becomes of the rows that
/// the query can't reach. So a search that fits the ones fits the others.
pub fn law_tests()
    ensures { TestsGoOn }
{
    law_conditions();
}

/// The law of local tests. Where no condition depends on more than the row that it judges, what the test of a row says
/// depends on that row and its label alone. Where none depends on more than the rows from the match's first on, it doesn't
/// depend on the labels before, and where a condition also names the first row by the variable that heads these, it doesn't
/// depend on the others.
pub fn law_local_tests()
    ensures rows { RowsAreTestedAlone }
    ensures spans { SpansAreTestedAlone }
    ensures led { LedAreTestedAlone }
{
    law_locality();
}
