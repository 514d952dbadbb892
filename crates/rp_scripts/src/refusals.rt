//! Whether memory was refused before.

/// Whether what is played was refused memory before. Its call is made again after the first time alone.
#[derive(Clone, Copy)]
pub struct Refusals {
    came: bool,
}

impl Refusals {
    pub fn none() -> Refusals {
        Refusals { came: false }
    }

    /// Notes a refusal, and says whether it is the first.
    pub fn is_first(&mut self) -> bool {
        let is_first = !self.came;
        self.came = true;
        is_first
    }
}
