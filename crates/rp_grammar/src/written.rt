//! A name as it is written.

use rp_value::Text;

/// A name, and where it stands.
#[derive(Debug)]
pub struct Name {
    /// What it means: the upper-case form of a plain name, what stands inside of a quoted one.
    pub text: Text,
    /// The offset of its first byte.
    pub at: usize,
}

/// It is let go of by a call, wherever it is held.
impl Drop for Name {
    fn drop(self) {
        let Name { text: _, at: _ } = self;
    }
}
