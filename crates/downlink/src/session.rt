// A cell and a terminal on air: each subframe that the cell writes is heard at once.
use crate::picture::show_grid;
use air::answers::Outcome;
use air::cell::Cell;
use air::parked::Parked;
use air::terminal::Terminal;
use calendar::grant::Grant;
use calendar::identity::Identity;
use calendar::time::Time;
use chain::built_in::{BuiltIn, built_in};
use packing::{Hex, unpack};
use point::Point;
use stage::setting::MOST_BITS;

const IDENTITY: u32 = 300;

const GRANT: Grant = Grant {
    rnti: 17,
    subframes: 2,
    repetitions: 1,
    length: 40,
};

// Both ends, and the buffers that their calls take.
#[derive(Drop)]
struct Session<P: Point> {
    cell: Cell<BuiltIn, P>,
    terminal: Terminal<BuiltIn, P>,
    work: Vec<u8>,
    side: Vec<u8>,
}

// Offers a block of five bytes in two subframes from frame 0, subframe 8 on.
pub fn show_session<P: Point>(rt: &HostRuntime, kind: &str) -> anyhow::Result<()> {
    let mut session: Session<P> = Session::new(rt)?;
    println!(rt; "on air: identity {IDENTITY}, frame 0, subframe 8, {kind} points")?;
    session.offer(rt, b"Hello")?;
    session.show_subframes(rt)?;
    session.stop(rt)
}

impl<P: Point> Session<P> {
    fn new(rt: &HostRuntime) -> anyhow::Result<Session<P>> {
        Ok(Session {
            cell: parked()?.cell(built_in()),
            terminal: parked()?.terminal(built_in()),
            work: vec![in rt.alloc(); 0u8; MOST_BITS]?,
            side: vec![in rt.alloc(); 0u8; MOST_BITS]?,
        })
    }

    fn offer(&mut self, rt: &HostRuntime, block: &[u8]) -> anyhow::Result<()> {
        unpack(block, &mut self.work);
        self.cell.offer(GRANT, &mut self.work, &mut self.side)?;
        println!(rt; "offer accepted: RNTI 17, 40 bits, 2 subframes, 1 repetitions")?;
        self.terminal.expect(GRANT)?;
        Ok(())
    }

    // Four subframes, each heard at once, and the first grid.
    fn show_subframes(&mut self, rt: &HostRuntime) -> anyhow::Result<()> {
        for turn in 0..4u8 {
            let Time { frame, subframe } = self.cell.time();
            let mut grid = vec![in rt.alloc(); P::blank(); 168]?;
            let mut block = vec![in rt.alloc(); 0u8; 40]?;
            let aired = self
                .cell
                .subframe(&mut grid, &mut self.work, &mut self.side)?;
            print!(rt; "{frame}.{subframe} {aired} | ")?;
            let heard = self
                .terminal
                .hear(&grid, &mut self.work, &mut self.side, &mut block)?;
            match heard {
                Outcome::Block => println!(rt; "{heard} {}", Hex { bits: &block })?,
                _ => println!(rt; "{heard}")?,
            }
            if turn == 0 {
                show_grid(
                    rt,
                    &grid,
                    Identity::new(IDENTITY).unwrap_or(Identity::zero()),
                )?;
            }
        }
        Ok(())
    }

    fn stop(self, rt: &HostRuntime) -> anyhow::Result<()> {
        let parked = self.cell.stop();
        let Time { frame, subframe } = parked.time();
        println!(rt;
            "parked: identity {}, frame {frame}, subframe {subframe}",
            parked.identity()
        )?;
        Ok(())
    }
}

fn parked() -> anyhow::Result<Parked> {
    let mut parked = Parked::new();
    parked.set_identity(IDENTITY)?;
    parked.set_time(0, 8)?;
    Ok(parked)
}
