ghost use Rattle.std.specs.Prelude.{◌≡◌};
ghost use Rattle.stage.specs.Refusals.{ranged};

// The most bits of a block or a word, and the least bytes of a work or side buffer.
pub const MOST_BITS: usize = 7680;

// The two numbers of a setting: how many bits selection puts out, and the scrambler's seed.
#[derive(Clone, Copy, PartialEq, Eq, Debug)]
pub struct Setting {
    pub output: usize,
    pub seed: u32,
}

impl Setting {
    // Whether `output` is from 1 to 7,680 and `seed` below 2^31.
    pub fn in_range(self) -> bool
        ensures { result ≡ ranged self }
    {
        (1..=MOST_BITS).contains(&self.output) && self.seed < 1 << 31
    }
}
