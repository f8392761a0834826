// Samples along the piece of a spline with a second derivative at each knot, by the coefficients of
// its polynomial in x - x0.
ghost use Rattle.std.specs.Prelude.{◌≡◌, ◌+◌, ◌-◌, ◌≤◌, length};
ghost use Rattle.lists.specs.Stored.{Stored};
ghost use Rattle.sampling.specs.declared.Form.TheVariants as F;
ghost use Rattle.sampling.specs.Walk.{first_of, third_of, spline_sample};

use crate::blocks::{Cursor, four, next};
use crate::{Drawn, Pieces, position};
use points::{Knot, Piece};

// The coefficients of the pieces, those of x - x0 and those of its cube, to the fronts of two rows.
// Stays: one loop makes both. By `Knots::per_segment` there are two, and each piece is opened
// twice.
fn coefficients(pieces: Pieces<'_>, c1s: &mut [f32; 66], c3s: &mut [f32; 66])
    ensures first { Stored (first_of pieces.entry) 0 (pieces.entry.knots.now.count - 1) c1s.old
        c1s.new }
    ensures third { Stored (third_of pieces.entry) 0 (pieces.entry.knots.now.count - 1) c3s.old
        c3s.new }
{
    for i in 0..pieces.knots.count - 1 {
        let piece = pieces.at(i);
        c1s[i] = spline::first_coefficient(piece);
        c3s[i] = spline::third_coefficient(piece);
    }
}

// Sample v of the piece from the knot a on with these coefficients.
// Stays: three numbers, of which each comes from a row of its own.
#[tactic(auto, unfolding(crate::specs::Walk::spline_sample))]
fn sample(a: Knot, c1: f32, c2: f32, c3: f32, step: f32, v: usize) -> f32
    requires { v ≤ 4096 }
    ensures { result ≡ spline_sample a c1 c2 c3 step v }
{
    let height = spline::polynomial_from(a, c1, c2, c3, position(step, v));
    single::clamp(height)
}

// The pieces of a spline.
pub struct Spline;

impl Drawn for Spline {
    ghost form = { F.Spline };

    #[tactic(auto, unfolding(crate::specs::Pieces::piece_height))]
    fn sample_at(piece: Piece, x: f32) -> f32 {
        single::clamp(spline::spline_piece(piece, x))
    }

    fn draw(pieces: Pieces<'_>, ends: &[u32; 66], step: f32, samples: &mut [f32]) -> Cursor {
        let mut c1s = [0.0; 66];
        let mut c3s = [0.0; 66];
        coefficients(pieces, &mut c1s, &mut c3s);
        let count = samples.len();
        let mut p = Cursor::START;
        // Stays: a turn goes four samples on or to the end of a piece, and stops short of a block
        // without room.
        while p.v + 4 <= count {
            let i = p.i;
            let a = pieces.knots.at(i);
            let c1 = c1s[i];
            let c2 = spline::second_coefficient(pieces.values[i]);
            let c3 = c3s[i];
            let v = p.v;
            four(|j| sample(a, c1, c2, c3, step, v + j), v, samples);
            p = next(ends, p);
        }
        p
    }
}
