ghost use Rattle.std.specs.Prelude.{ℕ, List};

// Where the blocks go that a terminal hands up.
pub trait Sink {
    // what taking a block does to the sink: before, the block, after
    ghost takes: { Self → List ℕ → Self → Type 0 };

    fn take(&mut self, block: &[u8])
        ensures { takes self.old block.now self.new };
}
