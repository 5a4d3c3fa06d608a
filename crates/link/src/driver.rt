use air::answers::{Airing, Outcome};
use air::cell::Cell;
use air::fault::EndFault;
use air::terminal::Terminal;

// A cell, the terminal that follows it, and the block buffer in which that hears.
#[derive(Drop)]
pub struct Link<S, P> {
    cell: Cell<S, P>,
    terminal: Terminal<S, P>,
    block: [u8; 2536],
}

// What an accepted subframe was to the cell, and to the terminal.
#[derive(Clone, Copy)]
pub struct Subframe {
    pub aired: Airing,
    pub heard: Result<Outcome, EndFault>,
}

mod calls;
mod hearing;
mod moves;
