// The table of a board's points.
ghost use Rattle.std.specs.Prelude.{◌≡◌};
ghost use Rattle.std.specs.Fn.{FnOnceReturnsAtMut};
ghost use Rattle.model.specs.Points.{empty};
ghost use Rattle.board.specs.Table.{points_of, indexed, seen, placed_in, StepsAt};

use datapoint::refusal::Refusal;
use points::placed::Placed;

// The 48 places, the point 1 first.
pub type Table = [Option<Placed>; 48];

// A table with no point placed.
pub fn unplaced() -> Table
    ensures { points_of result ≡ empty }
{
    [None; 48]
}

// Where the point of that number stands in the table.
pub fn index(point: usize) -> Result<usize, Refusal>
    ensures { result ≡ indexed point }
{
    match point {
        1..=48 => Ok(point - 1),
        _ => Err(Refusal::NoSuchPoint),
    }
}

// The placed point of that number.
pub fn placed(points: &Table, point: usize) -> Result<&Placed, Refusal>
    ensures { seen result ≡ placed_in point (points_of points.now) }
{
    let at = index(point)?;
    points[at].as_ref().ok_or(Refusal::NotPlaced)
}

// Takes a step at the placed point of that number.
pub(crate) fn at_placed<F: FnOnce(&mut Placed) -> Result<usize, Refusal>>(
    points: &mut Table,
    point: usize,
    step: F,
) -> Result<usize, Refusal>
    requires { F.IsAlwaysCallable step }
    ensures { StepsAt point (FnOnceReturnsAtMut F.FnOnce step) points.old result points.new }
{
    let at = index(point)?;
    // A match: `points[at].as_mut().ok_or(..)?` is not covered by the borrow checker.
    match &mut points[at] {
        Some(placed) => step(placed),
        None => Err(Refusal::NotPlaced),
    }
}
