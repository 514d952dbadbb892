//! Texts that equal fields share.
ghost use Rattle.std.specs.Prelude.{◌≡◌, IfOk};

use rp_value::Text;
use std::alloc::{AllocError, Global};

/// How many texts are kept at most.
const PLACES: usize = 1024;

/// The last texts of an input, each at a place that its bytes choose. A column of few symbols takes one text for each of
/// them, and not one for each row.
pub struct Texts {
    kept: Vec<Option<Text>>,
}

/// It is let go of by a call, wherever it is held.
impl Drop for Texts {
    fn drop(self) {
        let Texts { kept: _ } = self;
    }
}

impl Texts {
    /// No text is kept yet.
    pub fn new(alloc: Global) -> Result<Texts, AllocError> {
        let mut kept = Vec::with_capacity(alloc, PLACES)?;
        for _place in 0..PLACES {
            kept.push(None)?;
        }
        Ok(Texts { kept })
    }

    /// The text of these bytes: a further owner of one that is kept, or a new one, which is kept from now on.
    pub fn text_of(&mut self, alloc: Global, bytes: &str) -> Result<Text, AllocError>
        ensures { IfOk result (λ text. text ≡ bytes.now) }
    {
        let place = place_of(bytes);
        if let Some(Some(text)) = self.kept.get(place) {
            if text.as_str() == bytes {
                return text.share();
            }
        }
        let string = String::from_str(alloc, bytes)?;
        let text = Text::new(alloc, string)?;
        self.keep(place, text.share()?);
        Ok(text)
    }

    fn keep(&mut self, place: usize, text: Text) {
        if let Some(kept) = self.kept.get_mut(place) {
            *kept = Some(text);
        }
    }
}

/// The place of a text: any would do, and equal texts have one.
fn place_of(text: &str) -> usize {
    let mut place = text.len();
    for byte in text.as_bytes() {
        place = place.wrapping_mul(31).wrapping_add(usize::from(*byte));
    }
    place % PLACES
}
