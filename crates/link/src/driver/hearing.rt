ghost use Rattle.std.specs.Prelude.{◌≡◌, false, length, is_some, OnErr};
ghost use Rattle.std.specs.Result.{result_err};
ghost use Rattle.air.specs.Cells.{airs, stepped};
ghost use Rattle.air.specs.Refusals.{subframe_refusal, end_refusal, settled, cleared, answered};
ghost use Rattle.air.specs.Terminals.{short_block, hears};
ghost use Rattle.link.specs.Following.{unheard, hearkens, forgot};
ghost use Rattle.link.specs.Links.{link_of, hears_in};
ghost use Rattle.link.specs.Sinks.{Taken};

use crate::driver::Link;
use crate::sink::Sink;
use air::answers::{Airing, Outcome};
use air::fault::EndFault;
use point::Point;
use stage::stages::Stage;

// The two ends one by one, for grids that are not heard as written.
impl<S: Stage, P: Point> Link<S, P> {
    // The cell's subframe, which the terminal does not hear. Tests 4 and 17.
    pub fn air(
        &mut self,
        grid: &mut [P],
        work: &mut [u8],
        side: &mut [u8],
    ) -> Result<Airing, EndFault>
        ensures refusal { result_err result ≡ subframe_refusal work.old side.old (length grid.old) }
        ensures answer { result ≡ answered (result_err result) (airs P.Point.kind (link_of S.Stage.meaning self.old).cell).answer }
        ensures grid { grid.new ≡ settled (result_err result) grid.old (airs P.Point.kind (link_of S.Stage.meaning self.old).cell).grid }
        ensures link { link_of S.Stage.meaning self.new ≡ record { cell = settled (result_err result) (link_of S.Stage.meaning self.old).cell (stepped P.Point.kind (link_of S.Stage.meaning self.old).cell); terminal = (link_of S.Stage.meaning self.old).terminal } }
        ensures block { self.new.block ≡ self.old.block }
        ensures work { work.new ≡ cleared (result_err result) work.old }
        ensures side { side.new ≡ cleared (result_err result) side.old }
        ensures untouched { OnErr result (self.new ≡ self.old) }
    {
        self.cell.subframe(grid, work, side)
    }

    // The terminal hears a grid, and hands up to the sink. Tests 4, 17 and 19.
    pub fn hear<K: Sink>(
        &mut self,
        grid: &[P],
        work: &mut [u8],
        side: &mut [u8],
        sink: &mut K,
    ) -> Result<Outcome, EndFault>
        ensures refusal { result_err result ≡ unheard P.Point.kind (link_of S.Stage.meaning self.old).terminal (hears_in work.old side.old self.old.block) grid.now }
        ensures answer { result ≡ answered (result_err result) (hears P.Point.kind (link_of S.Stage.meaning self.old).terminal self.old.block grid.now).outcome }
        ensures link { link_of S.Stage.meaning self.new ≡ record { cell = (link_of S.Stage.meaning self.old).cell; terminal = (hearkens P.Point.kind (link_of S.Stage.meaning self.old).terminal (hears_in work.old side.old self.old.block) grid.now).0 } }
        ensures handed { Taken K.Sink.takes sink.old (hearkens P.Point.kind (link_of S.Stage.meaning self.old).terminal (hears_in work.old side.old self.old.block) grid.now).1 sink.new }
        ensures room { length self.old.block ≡ 2536 }
        ensures long { short_block (link_of S.Stage.meaning self.old).terminal.awaited self.old.block ≡ false }
        ensures block { self.new.block ≡ settled (result_err result) self.old.block (hears P.Point.kind (link_of S.Stage.meaning self.old).terminal self.old.block grid.now).buffer }
        ensures work { work.new ≡ cleared (result_err result) work.old }
        ensures side { side.new ≡ cleared (result_err result) side.old }
        ensures untouched { OnErr result (self.new ≡ self.old) }
    {
        let n = self.terminal.awaited_length();
        let outcome = self.terminal.hear(grid, work, side, &mut self.block)?;
        if outcome == Outcome::Block {
            sink.take(&self.block[..n]);
        }
        Ok(outcome)
    }

    // The terminal forgets its grant. Test 20.
    pub fn forget(&mut self) -> Result<(), EndFault>
        ensures refusal { result_err result ≡ end_refusal (is_some (link_of S.Stage.meaning self.old).terminal.awaited) }
        ensures link { link_of S.Stage.meaning self.new ≡ record { cell = (link_of S.Stage.meaning self.old).cell; terminal = forgot (link_of S.Stage.meaning self.old).terminal } }
        ensures block { self.new.block ≡ self.old.block }
        ensures untouched { OnErr result (self.new ≡ self.old) }
    {
        self.terminal.forget()
    }
}
