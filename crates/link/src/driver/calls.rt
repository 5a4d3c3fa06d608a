ghost use Rattle.std.specs.Prelude.{◌≡◌, [], length, is_some, OnErr};
ghost use Rattle.std.specs.Result.{result_err};
ghost use Rattle.calendar.specs.Grants.{output};
ghost use Rattle.air.specs.Cells.{airs};
ghost use Rattle.air.specs.Refusals.{subframe_refusal, offer_refusal, end_refusal, settled, cleared, answered};
ghost use Rattle.air.specs.Terminals.{hears};
ghost use Rattle.link.specs.Calls.{offer, subframe, withdraw};
ghost use Rattle.link.specs.Following.{unheard, linked_on, handed_on, block_heard, Serves};
ghost use Rattle.link.specs.Links.{link_of, heard_in};
ghost use Rattle.link.specs.Sinks.{Taken};

use crate::driver::{Link, Subframe};
use crate::sink::Sink;
use air::fault::EndFault;
use calendar::grant::Grant;
use point::Point;
use stage::stages::Stage;

// The calls of the cell, with the terminal following.
impl<S: Stage, P: Point> Link<S, P> {
    // Offers a block to the cell, and tells the terminal of the grant where it is covered: that is the answer. Tests 4 and 10 to 16.
    pub fn offer(
        &mut self,
        grant: Grant,
        work: &mut [u8],
        side: &mut [u8],
    ) -> Result<bool, EndFault>
        ensures refusal { result_err result ≡ offer_refusal (link_of S.Stage.meaning self.old).cell.chain (is_some (link_of S.Stage.meaning self.old).cell.pending) grant work.old side.old }
        ensures answer { result ≡ answered (result_err result) ((link_of S.Stage.meaning self.old).cell.chain.covers grant.length (output grant)) }
        ensures link { link_of S.Stage.meaning self.new ≡ linked_on P.Point.kind (link_of S.Stage.meaning self.old) (heard_in work.old side.old self.old.block) (offer grant work.old side.old) }
        ensures block { self.new.block ≡ self.old.block }
        ensures work { work.new ≡ cleared (result_err result) work.old }
        ensures side { side.new ≡ cleared (result_err result) side.old }
        ensures untouched { OnErr result (self.new ≡ self.old) }
    {
        self.cell.offer(grant, work, side)?;
        let covered = self.cell.is_covered();
        if covered {
            let _ = self.terminal.expect(grant);
        }
        Ok(covered)
    }

    // One subframe of the cell, which the terminal hears as written; a block goes to the sink. Tests 4 and 17.
    #[tactic(auto, using(crate::proofs::Driving::long_zeros))]
    pub fn subframe<K: Sink>(
        &mut self,
        grid: &mut [P],
        work: &mut [u8],
        side: &mut [u8],
        sink: &mut K,
    ) -> Result<Subframe, EndFault>
        ensures refusal { result_err result ≡ subframe_refusal work.old side.old (length grid.old) }
        ensures answer { result ≡ answered (result_err result) (record { aired = (airs P.Point.kind (link_of S.Stage.meaning self.old).cell).answer; heard = answered (unheard P.Point.kind (link_of S.Stage.meaning self.old).terminal (heard_in work.old side.old self.old.block) (airs P.Point.kind (link_of S.Stage.meaning self.old).cell).grid) (hears P.Point.kind (link_of S.Stage.meaning self.old).terminal self.old.block (airs P.Point.kind (link_of S.Stage.meaning self.old).cell).grid).outcome }) }
        ensures grid { grid.new ≡ settled (result_err result) grid.old (airs P.Point.kind (link_of S.Stage.meaning self.old).cell).grid }
        ensures link { link_of S.Stage.meaning self.new ≡ linked_on P.Point.kind (link_of S.Stage.meaning self.old) (heard_in work.old side.old self.old.block) (subframe work.old side.old grid.old) }
        ensures handed { Taken K.Sink.takes sink.old (handed_on P.Point.kind (link_of S.Stage.meaning self.old) (heard_in work.old side.old self.old.block) (subframe work.old side.old grid.old)) sink.new }
        ensures served { Serves (link_of S.Stage.meaning self.old) (heard_in work.old side.old self.old.block) (subframe work.old side.old grid.old) }
        ensures block { self.new.block ≡ settled (result_err result) self.old.block (block_heard P.Point.kind (link_of S.Stage.meaning self.old) (heard_in work.old side.old self.old.block)) }
        ensures work { work.new ≡ cleared (result_err result) work.old }
        ensures side { side.new ≡ cleared (result_err result) side.old }
        ensures untouched { OnErr result (self.new ≡ self.old) }
    {
        let aired = self.air(grid, work, side)?;
        let heard = self.hear(grid, work, side, sink);
        Ok(Subframe { aired, heard })
    }

    // Withdraws the offer, and makes the terminal forget the grant where it was told. Test 20.
    pub fn withdraw(&mut self) -> Result<(), EndFault>
        ensures refusal { result_err result ≡ end_refusal (is_some (link_of S.Stage.meaning self.old).cell.pending) }
        ensures link { link_of S.Stage.meaning self.new ≡ linked_on P.Point.kind (link_of S.Stage.meaning self.old) (heard_in [] [] self.old.block) withdraw }
        ensures block { self.new.block ≡ self.old.block }
        ensures untouched { OnErr result (self.new ≡ self.old) }
    {
        let covered = self.cell.is_covered();
        self.cell.withdraw()?;
        if covered {
            let _ = self.terminal.forget();
        }
        Ok(())
    }
}
