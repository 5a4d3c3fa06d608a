ghost use Rattle.std.specs.Prelude.{◌≡◌, length, slice_index};
ghost use Rattle.std.specs.Option.{option_map};
ghost use Rattle.calendar.specs.Identities.{number_of};
ghost use Rattle.grid.specs.Walk.{laid};
ghost use Rattle.grid.specs.Purposes.{among};
ghost use Rattle.grid.specs.Pairs.{is_one, points, pair_points};
ghost use Rattle.grid.specs.Grids.{vacant, marked, carrying, aired_bits, in_320};
ghost use Rattle.grid.specs.Laws.{MeetsRules};

use crate::places::Places;
use crate::purpose::Purpose;
use crate::reference::reference_bits;
use crate::things::lay;
use calendar::identity::Identity;
use point::Point;

// Writes the grid of a closed subframe: blanks only.
pub fn write_closed<P: Point>(grid: &mut [P])
    ensures { grid.new ≡ vacant P.Point.kind (length grid.old) }
{
    let blank = P::blank();
    grid.fill_with(|| blank);
}

// Writes the grid of an open subframe without data: the reference points, and blanks.
#[tactic(auto, unfolding(crate::specs::Grids::marked))]
pub fn write_idle<P: Point>(grid: &mut [P], identity: Identity, subframe: u8)
    ensures { grid.new ≡ marked P.Point.kind (length grid.old) (number_of identity) subframe }
{
    write_closed(grid);
    let bits = reference_bits(identity, subframe);
    put_pairs(grid, identity, Purpose::Reference, &bits);
}

// Writes the grid of a data subframe: the reference points, and the bits on the data elements.
#[tactic(auto, using(crate::proofs::Carried::meets_rules), unfolding(crate::specs::Grids::carrying))]
pub fn write_data<P: Point>(grid: &mut [P], identity: Identity, subframe: u8, bits: &[u8])
    ensures after { grid.new ≡ carrying P.Point.kind (length grid.old) (number_of identity) subframe bits.now }
    ensures law { MeetsRules P.Point.kind }
{
    write_idle(grid, identity, subframe);
    put_pairs(grid, identity, Purpose::Data, bits);
}

// Reads the bits of the data elements, 320 where the grid has 168 points. None where one of them is no pair.
pub fn read_data<P: Point>(grid: &[P], identity: Identity) -> Option<[u8; 320]>
    ensures value { result ≡ option_map in_320 (aired_bits P.Point.kind (number_of identity) grid.now) }
    ensures whole { length grid.now ≡ 168 → result ≡ aired_bits P.Point.kind (number_of identity) grid.now }
{
    let mut bits = [0; 320];
    let mut n = 0;
    for place in Places::of(identity, Purpose::Data, grid.len()) {
        let Some((first, second)) = grid[place].pair() else {
            return None;
        };
        if n < 320 {
            bits[n] = first as u8;
            bits[n + 1] = second as u8;
            n += 2;
        }
    }
    Some(bits)
}

// Puts each pair of bits as its point on the elements of one purpose in rising place, as far as they go.
#[tactic(auto, using(crate::proofs::Bits::points_of_chunks, crate::proofs::Bits::from_first))]
fn put_pairs<P: Point>(grid: &mut [P], identity: Identity, what: Purpose, bits: &[u8])
    ensures { grid.new ≡ laid (among what (number_of identity)) 0 grid.old (points P.Point.kind bits.now) }
{
    let (pairs, _) = bits.as_chunks::<2>();
    put_points(grid, identity, what, pairs);
}

fn put_points<P: Point>(grid: &mut [P], identity: Identity, what: Purpose, pairs: &[[u8; 2]])
    ensures { grid.new ≡ laid (among what (number_of identity)) 0 grid.old (pair_points P.Point.kind pairs.now) }
{
    lay(
        grid,
        identity,
        what,
        pairs.iter().map(|pair| point_of(pair)),
    );
}

fn point_of<P: Point>(pair: &[u8; 2]) -> P
    ensures { result ≡ P.Point.kind.point (is_one (slice_index pair.now 0)) (is_one (slice_index pair.now 1)) }
{
    P::of(pair[0] == 1, pair[1] == 1)
}
