ghost use Rattle.std.specs.Prelude.{◌≡◌};
ghost use Rattle.chain.specs.Chained.{chain_length, chain_covers, ChainStands};

use crate::scrambler::Scrambler;
use crate::selection::Selection;
use check_bits::CheckBits;
use interleaver::Interleaver;
use stage::pair::Pair;
use stage::setting::Setting;
use stage::stages::Stage;
use tail_biting::TailBitingCode;

// The five stages in order, as nested pairs.
pub type BuiltIn = Pair<
    CheckBits,
    Pair<TailBitingCode, Pair<Interleaver, Pair<Selection, Scrambler>>>,
>;

// The built-in chain. Its lengths, its marks and its words are those of `ChainStands`.
pub fn built_in() -> BuiltIn
    ensures { ChainStands }
{
    let sent = Pair::new(Selection {}, Scrambler {});
    Pair::new(
        CheckBits::new(),
        Pair::new(TailBitingCode {}, Pair::new(Interleaver {}, sent)),
    )
}

// The word length of the built-in chain: E for blocks of 1 to 2,536 bits, else 0.
pub fn word_length(n: usize, s: Setting) -> usize
    ensures { result ≡ chain_length n s }
{
    built_in().length(n, s)
}

// Whether the built-in chain covers: where E is at least 3 (n + 24).
pub fn is_covered(n: usize, s: Setting) -> bool
    ensures { result ≡ chain_covers n s }
{
    built_in().covers(n, s)
}
