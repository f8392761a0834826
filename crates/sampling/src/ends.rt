// Where the pieces of a curve end: for each the first sample past its right knot.
ghost use Rattle.std.specs.Prelude.{◌≡◌, ◌≤◌};
ghost use Rattle.sampling.specs.Walk as W;

use crate::position;
use points::{Knots, too_thin};

// Whether sample e is the first past x.
fn is_end(x: f32, step: f32, e: usize) -> bool
    requires { (1 ≤ e) × (e ≤ 4095) }
    ensures { result ≡ W.is_end x step e }
{
    (x < position(step, e)) & !(x < position(step, e - 1))
}

// The ends of the pieces but the last, to the front of a row: whether all are right and no segment
// is too thin. Each end is guessed by a quotient and then looked at, so that nothing need be known
// of quotients.
// Stays: a lent row. Whoever lends it has put the end of the last piece there; an `Option` of a row
// is no plainer, and is copied where it is handed back.
pub fn guess(knots: &Knots, step: f32, ends: &mut [u32; 66]) -> bool
    ensures { W.Guessed knots.now.xs knots.now.count step result ends.old ends.new }
{
    let mut right = !too_thin(knots.xs[0], knots.xs[1]);
    for i in 0..knots.count - 2 {
        let x = knots.xs[i + 1];
        let e = single::index(x / step) + 1;
        ends[i] = e as u32;
        right = right & is_end(x, step, e) & !too_thin(x, knots.xs[i + 2]);
    }
    right
}
