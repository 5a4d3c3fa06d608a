ghost use Rattle.std.specs.Prelude.{◌≡◌, not, ◌&&◌, [], ◌∷◌, ◌==◌};
ghost use Rattle.std.specs.Result.{result_err};
ghost use Rattle.stage.specs.Refusals.{first_fault, short};
ghost use Rattle.air.specs.declared.fault.EndFault.TheVariants.{ShortBuffer, Pending, WordLength, GridSize};

use crate::fault::EndFault;
use stage::admission::is_short;

// The points of a grid.
const GRID_POINTS: usize = 168;

// Test 4.
pub(crate) fn check_buffers(work: &[u8], side: &[u8]) -> Result<(), EndFault>
    ensures { result_err result ≡ first_fault ((short work.now side.now, ShortBuffer) ∷ []) }
{
    if is_short(work, side) {
        return Err(EndFault::ShortBuffer);
    }
    Ok(())
}

// Test 14.
pub(crate) fn check_free(busy: bool) -> Result<(), EndFault>
    ensures { result_err result ≡ first_fault ((busy, Pending) ∷ []) }
{
    if busy {
        return Err(EndFault::Pending);
    }
    Ok(())
}

// Test 15: where the chain has a word, it is as long as the grant asks.
pub(crate) fn check_word(size: usize, output: usize) -> Result<(), EndFault>
    ensures { result_err result ≡ first_fault ((not (size == 0) && not (size == output), WordLength) ∷ []) }
{
    if size != 0 && size != output {
        return Err(EndFault::WordLength);
    }
    Ok(())
}

// Test 17.
pub(crate) fn check_grid(points: usize) -> Result<(), EndFault>
    ensures { result_err result ≡ first_fault ((not (points == 168), GridSize) ∷ []) }
{
    if points != GRID_POINTS {
        return Err(EndFault::GridSize);
    }
    Ok(())
}
