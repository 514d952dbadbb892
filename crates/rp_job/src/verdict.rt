//! How a job ends that comes to its end.

/// How a job ended that came to its end.
#[derive(Clone, Copy)]
pub enum Verdict {
    /// Nothing was found.
    Clean,
    /// Something was found that isn't as it should be.
    Findings,
    /// Some partition was given up.
    GivenUp,
}

impl Verdict {
    /// The exit status: 0 where nothing was found, 1 where something was, 3 where a partition was given up.
    pub fn status(self) -> u8 {
        match self {
            Verdict::Clean => 0,
            Verdict::Findings => 1,
            Verdict::GivenUp => 3,
        }
    }
}
