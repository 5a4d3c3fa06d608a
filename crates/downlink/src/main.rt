// Takes a message through the built-in chain and back, shows what damaged words meet, and puts a cell and a terminal on air.
#![tactic(auto)]

mod bench;
mod bits;
mod picture;
mod session;

use crate::bench::Bench;
use crate::bits::{front, turn};
use crate::session::show_session;
use chain::built_in::{BuiltIn, built_in};
use check_bits::CheckBits;
use packing::Hex;
use point::fixed::FixedPoint;
use point::float::FloatPoint;
use stage::setting::Setting;

const SETTING: Setting = Setting {
    output: 320,
    seed: 25388,
};

fn main(rt: HostRuntime) -> anyhow::Result<()> {
    run(&rt)
}

fn run(rt: &HostRuntime) -> anyhow::Result<()> {
    show_chain(rt, b"123456789")?;
    show_session::<FixedPoint>(rt, "fixed")?;
    show_session::<FloatPoint>(rt, "float")
}

// A message through the chain and back, damaged, and where the chain does not cover.
fn show_chain(rt: &HostRuntime, message: &[u8]) -> anyhow::Result<()> {
    show_check_bits(rt, message)?;
    println!(rt; "chain: check bits, tail-biting code, interleaver, selection, scrambler")?;
    println!(rt; "setting: E = 320, seed = 25388")?;
    let mut bench = Bench::new(rt, built_in(), message, SETTING)?;
    bench.send(rt)?;
    bench.receive(rt)?;
    show_damage(rt, &mut bench)?;

    println!(rt; "the same with E = 287, one fewer than the 288 coded bits:")?;
    bench.setting.output = 287;
    bench.send(rt)?;
    bench.receive(rt)
}

// A message and its check bits alone.
fn show_check_bits(rt: &HostRuntime, message: &[u8]) -> anyhow::Result<()> {
    let mut bench = Bench::new(rt, CheckBits::new(), message, SETTING)?;
    let n = bench.bits();
    let m = bench.forward()?;
    println!(rt;
        "message: \"123456789\", {n} bits {}",
        Hex {
            bits: front(&bench.work, n)
        }
    )?;
    let bits = bench.work.get(n..m).unwrap_or(&[]);
    println!(rt; "check bits: {}", Hex { bits })?;
    Ok(())
}

// What words with one bit turned meet, and one with a byte that is no bit.
fn show_damage(rt: &HostRuntime, bench: &mut Bench<BuiltIn>) -> anyhow::Result<()> {
    for turned in [0usize, 287, 288, 319] {
        bench.forward()?;
        turn(&mut bench.work, turned);
        println!(rt; "word with bit {turned} turned:")?;
        bench.receive(rt)?;
    }
    println!(rt; "word with bytes that are no bits:")?;
    bench.work.fill(2);
    bench.receive(rt)
}
