// Grids as text: a line for each subcarrier, 11 first, and a character for each symbol.
use calendar::identity::Identity;
use grid::purpose::Purpose;
use grid::shift::Shift;
use point::Point;

const SUBCARRIERS: usize = 12;

const ELEMENTS: usize = 14 * SUBCARRIERS;

// Prints `.` for what is no pair, 0 to 3 for a data point, and a to d for a reference point.
pub fn show_grid<P: Point>(rt: &HostRuntime, grid: &[P], identity: Identity) -> anyhow::Result<()> {
    let shift = Shift::of(identity);
    for k in (0..SUBCARRIERS).rev() {
        print!(rt; "{k:2} ")?;
        for place in (k..ELEMENTS).step_by(SUBCARRIERS) {
            let point = grid.get(place).copied().unwrap_or(P::blank());
            print!(rt; "{}", letter(point, shift.purpose(place)))?;
        }
        println!(rt; "")?;
    }
    Ok(())
}

fn letter<P: Point>(point: P, purpose: Purpose) -> char {
    match (point.pair(), purpose) {
        (None, _) => '.',
        (Some((false, false)), Purpose::Data) => '0',
        (Some((false, true)), Purpose::Data) => '1',
        (Some((true, false)), Purpose::Data) => '2',
        (Some((true, true)), Purpose::Data) => '3',
        (Some((false, false)), Purpose::Reference) => 'a',
        (Some((false, true)), Purpose::Reference) => 'b',
        (Some((true, false)), Purpose::Reference) => 'c',
        (Some((true, true)), Purpose::Reference) => 'd',
    }
}
