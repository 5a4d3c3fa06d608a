// Runs published vectors, and prints what came out beside what should.
#![tactic(auto)]

use anyhow::anyhow;
use calendar::identity::Identity;
use check_bits::CheckBits;
use gold::Gold;
use grid::reference::reference_bits;
use packing::{Hex, unpack};
use point::Point;
use point::fixed::FixedPoint;
use stage::setting::{MOST_BITS, Setting};
use stage::stages::Stage;
use tail_biting::TailBitingCode;

const SETTING: Setting = Setting { output: 1, seed: 0 };

fn main(rt: HostRuntime) -> anyhow::Result<()> {
    run(&rt)
}

fn run(rt: &HostRuntime) -> anyhow::Result<()> {
    println!(rt; "check bits of the text 123456789 (catalogue of CRC parameters, CRC-24/LTE-A)")?;
    check_bits(rt, b"123456789", "CDE703")?;
    println!(rt;
        "streams 1 and 0 of the tail-biting code, alternating (IEEE 802.16, WiMax project sheet)"
    )?;
    streams(
        rt,
        b"\x55\x8a\xc4\xa5\x3a\x17\x24\xe1\x63\xac\x2b\xf9",
        "2833E48D392026D5B6DC5E4AF47ADD29494B6C89151348CA",
    )?;
    println!(rt; "the same (libosmocore, WiMax FCH)")?;
    streams(rt, b"\xfc\xa0\xa0\xfc\xa0\xa0", "19428AED21ED19428AED21ED")?;
    println!(rt;
        "c(0) to c(3) at the reference seeds of identity 300 (thesis, Cairo University 2022)"
    )?;
    sequence(rt, 6, 5, "1")?;
    sequence(rt, 6, 6, "A")?;
    sequence(rt, 7, 5, "6")?;
    sequence(rt, 7, 6, "0")?;
    println!(rt; "the fixed point of bits 1, 0: I and Q, two's complement (the same thesis)")?;
    fixed_point(rt, "FA5805A8")?;
    println!(rt;
        "reference bits of identity 300, subframe 3, in rising place (TS 36.211, by an independent model)"
    )?;
    references(rt, 300, 3, "04B4")
}

fn say(rt: &HostRuntime, bits: &[u8], should_be: &str) -> anyhow::Result<()> {
    println!(rt; "  is        {}", Hex { bits })?;
    println!(rt; "  should be {should_be}")?;
    Ok(())
}

// The word of a block of whole bytes.
fn word<S: Stage>(rt: &HostRuntime, stage: &S, block: &[u8]) -> anyhow::Result<Vec<u8>> {
    let mut work = vec![in rt.alloc(); 0u8; MOST_BITS]?;
    let mut side = vec![in rt.alloc(); 0u8; MOST_BITS]?;
    unpack(block, &mut work);
    let m = stage.forward(block.len().saturating_mul(8), SETTING, &mut work, &mut side)?;
    work.truncate(m);
    Ok(work)
}

fn check_bits(rt: &HostRuntime, block: &[u8], should_be: &str) -> anyhow::Result<()> {
    let word = word(rt, &CheckBits::new(), block)?;
    say(rt, &word[word.len().saturating_sub(24)..], should_be)
}

fn streams(rt: &HostRuntime, block: &[u8], should_be: &str) -> anyhow::Result<()> {
    let word = word(rt, &TailBitingCode {}, block)?;
    let n = word.len() / 3;
    let bits: Vec<u8> = word
        .iter()
        .skip(n)
        .zip(word.iter().take(n))
        .flat_map(|(one, zero)| [*one, *zero])
        .collect(rt.alloc())?;
    say(rt, &bits, should_be)
}

// The seed by the rule itself, and not by the crate that is tried.
fn sequence(rt: &HostRuntime, slot: u8, symbol: u8, should_be: &str) -> anyhow::Result<()> {
    let factor = 7 * (u32::from(slot) + 1) + u32::from(symbol) + 1;
    let mut gold = Gold::new(1024 * factor * 601 + 601);
    let bits: [u8; 4] = std::array::from_fn(|_| gold.next_bit());
    println!(rt; "  slot {slot}, symbol {symbol}")?;
    say(rt, &bits, should_be)
}

fn fixed_point(rt: &HostRuntime, should_be: &str) -> anyhow::Result<()> {
    let FixedPoint { i, q } = FixedPoint::of(true, false);
    let mut bits = [0u8; 32];
    let (i_bits, q_bits) = bits.split_at_mut(16);
    unpack(&i.to_be_bytes(), i_bits);
    unpack(&q.to_be_bytes(), q_bits);
    say(rt, &bits, should_be)
}

fn references(
    rt: &HostRuntime,
    identity: u32,
    subframe: u8,
    should_be: &str,
) -> anyhow::Result<()> {
    let known = Identity::new(identity).ok_or_else(|| anyhow!("identity above 503"))?;
    say(rt, &reference_bits(known, subframe), should_be)
}
