// The rows of the system for the second derivatives, under each boundary rule.
ghost use Rattle.std.specs.Prelude.{◌≡◌, ◌+◌, ◌≤◌, ◌<◌};
ghost use Rattle.spline.specs.declared.SplineBoundary.TheVariants.{Natural, Clamped, NotAKnot};
ghost use Rattle.spline.specs.Second as Second;
ghost use Rattle.spline.specs.Second.{clamped_first, clamped_last};
ghost use Rattle.spline.specs.Second.{not_a_knot_first, not_a_knot_last, row_at};

use crate::thomas::Row;
use crate::{Segment, segment_at};
use points::Knots;

// The row of an inner knot between the segments p and q.
fn inner(p: Segment, q: Segment) -> Row
    ensures { result ≡ Second.inner p q }
{
    Row {
        a: p.width,
        b: 2.0 * (p.width + q.width),
        c: q.width,
        d: 6.0 * (q.secant - p.secant),
    }
}

// Clamped: the row of the first knot, with the segment q after it, and that of
// the last, with p before it.
fn clamped_first(s0: f32, q: Segment) -> Row
    ensures { result ≡ clamped_first s0 q }
{
    Row {
        a: 0.0,
        b: 2.0 * q.width,
        c: q.width,
        d: 6.0 * (q.secant - s0),
    }
}

fn clamped_last(s1: f32, p: Segment) -> Row
    ensures { result ≡ clamped_last s1 p }
{
    Row {
        a: p.width,
        b: 2.0 * p.width,
        c: 0.0,
        d: 6.0 * (s1 - p.secant),
    }
}

// Not-a-knot: the rows of the first and the last inner knot, each between the segments p and q.
fn not_a_knot_first(p: Segment, q: Segment) -> Row
    ensures { result ≡ not_a_knot_first p q }
{
    let h0 = p.width;
    let h1 = q.width;
    Row {
        a: 0.0,
        b: (h0 + h1) * (h0 + 2.0 * h1),
        c: (h1 - h0) * (h1 + h0),
        d: h1 * 6.0 * (q.secant - p.secant),
    }
}

fn not_a_knot_last(p: Segment, q: Segment) -> Row
    ensures { result ≡ not_a_knot_last p q }
{
    let g0 = p.width;
    let g1 = q.width;
    Row {
        a: (g0 - g1) * (g0 + g1),
        b: (g0 + g1) * (2.0 * g0 + g1),
        c: 0.0,
        d: g0 * 6.0 * (q.secant - p.secant),
    }
}

// The row of the inner knot k + 1 where the second derivatives at the ends are 0.
#[tactic(auto, unfolding(crate::specs::Second::row_at))]
pub fn natural_row(knots: &Knots, k: usize) -> Row
    requires { k + 2 < knots.now.count }
    ensures { result ≡ row_at knots.now.xs knots.now.ys knots.now.count Natural k }
{
    inner(segment_at(knots, k), segment_at(knots, k + 1))
}

// The row of the knot k where the slopes at the ends are given.
#[tactic(auto, unfolding(crate::specs::Second::row_at))]
pub fn clamped_row(knots: &Knots, s0: f32, s1: f32, k: usize) -> Row
    requires { k < knots.now.count }
    ensures { result ≡ row_at knots.now.xs knots.now.ys knots.now.count (Clamped s0 s1) k }
{
    if k == 0 {
        return clamped_first(s0, segment_at(knots, k));
    }
    let p = segment_at(knots, k - 1);
    if k + 1 == knots.count {
        return clamped_last(s1, p);
    }
    inner(p, segment_at(knots, k))
}

// The row of the inner knot k + 1 under not-a-knot.
#[tactic(auto, unfolding(crate::specs::Second::row_at))]
pub fn not_a_knot_row(knots: &Knots, k: usize) -> Row
    requires { k + 2 < knots.now.count }
    ensures { result ≡ row_at knots.now.xs knots.now.ys knots.now.count NotAKnot k }
{
    let p = segment_at(knots, k);
    let q = segment_at(knots, k + 1);
    if k == 0 {
        return not_a_knot_first(p, q);
    }
    if k + 3 == knots.count {
        return not_a_knot_last(p, q);
    }
    inner(p, q)
}
