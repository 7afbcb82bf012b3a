ghost use Rattle.std.specs.Prelude.{◌≡◌};

/// How many answers came, and a sum of what they said, which their order changes too.
#[derive(Clone, Copy)]
pub struct Tally {
    pub asked: u64,
    pub sum: u64,
}

/// No answer yet.
impl Default for Tally {
    ghost is_default = { λ t. (t.asked ≡ 0) × (t.sum ≡ 0) };

    fn default() -> Tally {
        Tally { asked: 0, sum: 0 }
    }
}

impl Tally {
    pub fn add(&mut self, said: usize) {
        self.asked = self.asked.wrapping_add(1);
        self.sum = self.sum.rotate_left(1) ^ said as u64;
    }
}
