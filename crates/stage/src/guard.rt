ghost use Rattle.std.specs.Prelude.{◌≡◌, length};
ghost use Rattle.stage.specs.Bits.{zeros};

// The bytes of a side buffer while a stage uses them. They are all 0 once the guard ends.
pub struct Cleared<'a> {
    pub bytes: &'a mut [u8],
}

impl Drop for Cleared<'_> {
    fn drop(self)
        ensures { self.exit.0.now ≡ zeros (length self.entry.bytes.now) }
    {
        self.bytes.fill(0);
        let Cleared { bytes: _ } = self;
    }
}
