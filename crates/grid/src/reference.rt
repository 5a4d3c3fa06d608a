ghost use Rattle.std.specs.Prelude.{◌≡◌, ◌≤◌};
ghost use Rattle.calendar.specs.Identities.{number_of};
ghost use Rattle.grid.specs.References.{reference_seed, symbol_bits, reference_bits};

use calendar::identity::Identity;
use gold::Gold;

// The 16 bits of a subframe's reference elements, in rising place.
#[tactic(auto, unfolding(crate::specs::References::reference_bits))]
pub fn reference_bits(identity: Identity, subframe: u8) -> [u8; 16]
    ensures { result ≡ reference_bits (number_of identity) subframe }
{
    let slot = 2 * subframe as u32;
    let symbols = [
        symbol_bits(reference_seed(identity, slot, 5)),
        symbol_bits(reference_seed(identity, slot, 6)),
        symbol_bits(reference_seed(identity, slot + 1, 5)),
        symbol_bits(reference_seed(identity, slot + 1, 6)),
    ];
    let mut bits = [0; 16];
    bits.copy_from_slice(symbols.as_flattened());
    bits
}

// The seed of a symbol's reference bits.
fn reference_seed(identity: Identity, slot: u32, symbol: u32) -> u32
    requires slot { slot ≤ 511 }
    requires symbol { symbol ≤ 6 }
    ensures { result ≡ reference_seed (number_of identity) slot symbol }
{
    let factor = 7 * (slot + 1) + symbol + 1;
    let odd = 2 * identity.value() as u32 + 1;
    1024 * factor * odd + odd
}

// The bits of both reference elements of a symbol with that seed, c(218) to c(221).
fn symbol_bits(seed: u32) -> [u8; 4]
    ensures { result ≡ symbol_bits seed }
{
    let mut gold = Gold::new(seed);
    gold.skip(218);
    std::array::from_fn(|_| gold.next_bit())
}
