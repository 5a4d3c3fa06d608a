#![tactic(auto)]

ghost use Rattle.std.specs.Prelude.{◌≡◌, ℕ, ◌+◌, ◌*◌, ◌/◌, ◌%◌, ◌^◌};
ghost use Rattle.gold.specs.Registers.{bits_of};
ghost use Rattle.gold.specs.Sequence.{gold, MeetsStandard};

// A generator of the pseudo-random sequence: the shift registers of its two sequences, 31 bits each, the next bit lowest.
#[derive(Clone, Copy)]
pub struct Gold {
    x1: u32,
    x2: u32,
}

// How far the two sequences run before c(0), the standard's N_C.
const NC: usize = 1600;

impl Gold {
    // The generator of a seed, at c(0). The seed's bit 31 does not count.
    pub fn new(seed: u32) -> Gold
        ensures bits { (k : ℕ) → bits_of result k ≡ gold seed k }
        ensures standard { MeetsStandard }
    {
        let mut gold = Gold { x1: 1, x2: seed };
        gold.skip(NC);
        gold
    }

    // The next bit of the sequence.
    pub fn next_bit(&mut self) -> u8
        ensures bit { result ≡ bits_of self.old 0 }
        ensures rest { (k : ℕ) → bits_of self.new k ≡ bits_of self.old (k + 1) }
    {
        let Gold { x1, x2 } = *self;
        self.x1 = shift_in(x1, (x1 >> 3) ^ x1);
        self.x2 = shift_in(x2, (x2 >> 3) ^ (x2 >> 2) ^ (x2 >> 1) ^ x2);
        ((x1 ^ x2) & 1) as u8
    }

    // Passes over n bits.
    pub fn skip(&mut self, n: usize)
        ensures { (k : ℕ) → bits_of self.new k ≡ bits_of self.old (k + n) }
    {
        for _ in 0..n {
            self.next_bit();
        }
    }
}

// A register one place on, the lowest bit of `fresh` coming in at the top.
fn shift_in(x: u32, fresh: u32) -> u32
    ensures { result ≡ x / 2 % 2 ^ 30 + fresh % 2 * 2 ^ 30 }
{
    ((x >> 1) & 0x3fff_ffff) | ((fresh & 1) << 30)
}
