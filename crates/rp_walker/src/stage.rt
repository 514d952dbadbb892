//! Where a walker stands at its start row.
ghost use Rattle.std.specs.Prelude.{◌≡◌};
ghost use Rattle.rp_walker.specs.Given.{run_of};

use crate::ahead::Ahead;
use crate::run::Run;
use rp_query::Item;

/// What is done at the present start row.
#[derive(Drop)]
pub(crate) enum Stage {
    /// Nothing is searched yet. A run of an earlier start row is begun again.
    Begin(Option<Run>),
    /// The search goes on.
    Searching(Run),
    /// It has ended, and the items of these rows are still to come.
    Giving(Ended, Ahead),
}

/// A search that has ended.
pub(crate) enum Ended {
    /// With a match.
    Match(Run),
    /// Without one.
    NoMatch(Run),
}

/// It is let go of by a call, wherever it is held.
impl Drop for Ended {
    fn drop(self) {
        match self {
            Ended::Match(_) => {}
            Ended::NoMatch(_) => {}
        }
    }
}

impl Ended {
    /// The run, to be begun again.
    #[inline(always)]
    pub(crate) fn into_run(self) -> Run
        ensures { result ≡ run_of self }
    {
        match self {
            Ended::Match(run) | Ended::NoMatch(run) => run,
        }
    }
}

/// What some turns came to.
#[derive(Drop)]
pub(crate) enum Step {
    /// There is more to do.
    Went,
    /// An item.
    Gave(Item),
    /// Nothing is left to do, until a row comes or the close.
    Idle,
}
