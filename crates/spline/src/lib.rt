// Cubic splines through the knots (de Boor 1978): here the segments and the pieces drawn by second
// derivatives, in `second` these derivatives under three boundary rules, from the rows in `system`
// by the solve in `thomas`.
#![tactic(auto)]

ghost use Rattle.std.specs.Prelude.{◌≡◌, ◌+◌, ◌<◌};
ghost use Rattle.spline.specs.Segments as S;
ghost use Rattle.spline.specs.Segments.{segment_at, polynomial_from, spline_piece, slope_of};
ghost use Rattle.spline.specs.Segments.{
  first_coefficient,
  second_coefficient,
  third_coefficient,
};

use points::{Knot, Knots, Piece, too_thin};
use single::guarded_quotient;

pub mod second;
mod system;
mod thomas;

// "The edge rule": natural, clamped with its start slope and end slope, or not-a-knot.
#[derive(Clone, Copy)]
pub enum SplineBoundary {
    Natural,
    Clamped { s0: f32, s1: f32 },
    NotAKnot,
}

// What lies between two neighbouring knots: the distance of their x, and the slope of the
// straight line through them.
#[derive(Clone, Copy)]
pub struct Segment {
    pub width: f32,
    pub secant: f32,
}

// The segment from a to b.
#[tactic(auto, unfolding(crate::specs::Segments::between))]
fn between(a: Knot, b: Knot) -> Segment
    ensures { result ≡ S.between a b }
{
    let width = b.x - a.x;
    Segment {
        width,
        secant: guarded_quotient(b.y - a.y, width, 1.0e-6),
    }
}

// The segment i of the knots.
#[tactic(auto, unfolding(crate::specs::Segments::segment_at))]
fn segment_at(knots: &Knots, i: usize) -> Segment
    requires { i + 1 < 66 }
    ensures { result ≡ segment_at knots.now.xs knots.now.ys i }
{
    between(knots.at(i), knots.at(i + 1))
}

// The coefficients of t, of its square and of its cube in the polynomial of a piece with a second
// derivative at each of its knots, t being x - a.x, and ma the second derivative at a.
#[tactic(auto, unfolding(crate::specs::Segments::first_coefficient))]
pub fn first_coefficient(piece: Piece) -> f32
    ensures { result ≡ first_coefficient piece.a piece.b piece.p piece.q }
{
    let s = between(piece.a, piece.b);
    s.secant - s.width * (2.0 * piece.p + piece.q) / 6.0
}

// ma / 2 as a product, which has the same bits for every ma.
pub fn second_coefficient(ma: f32) -> f32
    ensures { result ≡ second_coefficient ma }
{
    ma * 0.5
}

pub fn third_coefficient(piece: Piece) -> f32
    ensures { result ≡ third_coefficient piece.a piece.b piece.p piece.q }
{
    (piece.q - piece.p) / (6.0 * (piece.b.x - piece.a.x))
}

// The polynomial with these coefficients, from the knot a on, at x. Stays: three numbers; whoever
// samples has them in rows of their own.
pub fn polynomial_from(a: Knot, c1: f32, c2: f32, c3: f32, x: f32) -> f32
    ensures { result ≡ polynomial_from a c1 c2 c3 x }
{
    let t = x - a.x;
    a.y + c1 * t + c2 * t * t + c3 * t * t * t
}

// The piece with a second derivative at each of its knots, at x, unclamped.
#[tactic(auto, unfolding(crate::specs::Segments::spline_piece))]
pub fn spline_piece(piece: Piece, x: f32) -> f32
    ensures { result ≡ spline_piece piece.a piece.b piece.p piece.q x }
{
    if too_thin(piece.a.x, piece.b.x) {
        return piece.a.y;
    }
    let c1 = first_coefficient(piece);
    let c2 = second_coefficient(piece.p);
    let c3 = third_coefficient(piece);
    polynomial_from(piece.a, c1, c2, c3, x)
}

// A slope of a clamped curve, a signed 16-bit number over 256, as a float, in this one place: as a
// product with 1 / 256, which has the quotient's bits. Stays beside `height` of points: it is of a
// signed number.
pub fn clamped_slope(q: i16) -> f32
    ensures { result ≡ slope_of q }
{
    (q as f32) * 0.00390625
}
