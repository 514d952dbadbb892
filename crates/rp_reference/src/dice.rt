//! Numbers that look random.
ghost use Rattle.std.specs.Prelude.{◌<◌};

/// Numbers by a seed (Knuth's MMIX generator).
#[derive(Drop)]
pub struct Dice {
    state: u64,
}

impl Dice {
    pub fn new(seed: u64) -> Dice {
        Dice { state: seed }
    }

    /// A number below `sides`.
    pub fn below(&mut self, sides: u64) -> usize
        requires { 0 < sides }
        ensures { result < sides }
    {
        let product = self.state.wrapping_mul(6_364_136_223_846_793_005);
        self.state = product.wrapping_add(1_442_695_040_888_963_407);
        ((self.state >> 33) % sides) as usize
    }
}
