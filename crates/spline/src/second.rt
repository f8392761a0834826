// The second derivatives at the knots, made of the solution of the system.
ghost use Rattle.std.specs.Prelude.{◌≡◌, ◌+◌, ◌≤◌, ◌<◌, ℕ, length};
ghost use Rattle.lists.specs.Stored.{Stored};
ghost use Rattle.lists.specs.Tabulate.{tabulate};
ghost use Rattle.spline.specs.Second as Second;
ghost use Rattle.spline.specs.Second.{natural_at, ends_recovered, not_a_knot_at, second_at};
ghost use Rattle.spline.specs.Thomas.{solution};
ghost use Rattle.spline.specs.declared.SplineBoundary.TheVariants.{Clamped};
ghost use Rattle.spline.specs.declared.thomas.Row.{Row};

use crate::system::{clamped_row, natural_row, not_a_knot_row};
use crate::thomas::{Row, Swept, substitute, sweep};
use crate::{Segment, SplineBoundary, segment_at};
use points::Knots;
use single::guarded_quotient;

// The Thomas solve: the unknowns of a system by what gives its rows. Each row is made just before
// it is swept. In words the clause says: where every row given is that of a rule, the unknowns are
// the solution of the rule's system.
// Stays: two arrays and not one of `Swept`; document 01 has "arrays of 66 floats for x, height,
// tangent and the solver's rows, made by [0.0; 66]".
fn thomas_solve<F: Fn(usize) -> Row>(row_at: F, unknowns: &mut [f32])
    requires room { length unknowns.old ≤ 66 }
    requires callable { (k : ℕ) → k < length unknowns.old → F.pre row_at k }
    ensures { (rows : ℕ → Row) (m : ℕ) → length unknowns.old ≡ m
        → ((k : ℕ) (r : Row) → k < m → F.post row_at k r → r ≡ rows k)
        → unknowns.new ≡ tabulate m (solution rows m) }
{
    let mut aboves = [0.0; 66];
    let mut rights = [0.0; 66];
    let mut p = Swept::NONE;
    for k in 0..unknowns.len() {
        p = sweep(k, p, row_at(k));
        aboves[k] = p.above;
        rights[k] = p.right;
    }
    substitute(&aboves, &rights, unknowns);
}

// Natural: 0 at both ends.
fn natural(knots: &Knots, row: &mut [f32; 66])
    ensures { Stored (natural_at knots.now.xs knots.now.ys knots.now.count) 0 knots.now.count
        row.old row.new }
{
    let n = knots.count;
    thomas_solve(|k| natural_row(knots, k), &mut row[1..n - 1]);
    row[0] = 0.0;
    row[n - 1] = 0.0;
}

// The second derivative that the parabola through three knots has, with the
// segments p and q between them.
fn parabola(p: Segment, q: Segment) -> f32
    ensures { result ≡ Second.parabola p q }
{
    guarded_quotient(2.0 * (q.secant - p.secant), p.width + q.width, 1.0e-12)
}

// An end value from p and q, those of the next two knots: g is the segment from the end to
// p's knot, h the next one.
#[tactic(auto, unfolding(crate::specs::Second::recovered))]
fn recovered(g: Segment, h: Segment, p: f32, q: f32) -> f32
    ensures { result ≡ Second.recovered g h p q }
{
    p + guarded_quotient(g.width, h.width, 1.0e-12) * (p - q)
}

// Not-a-knot with at least 4 knots: the values at both ends are recovered from those of the inner
// knots, read back from the row.
fn ends_recovered(knots: &Knots, row: &mut [f32; 66])
    requires { 4 ≤ knots.now.count }
    ensures { Stored (ends_recovered knots.now.xs knots.now.ys knots.now.count) 0 knots.now.count
        row.old row.new }
{
    let n = knots.count;
    thomas_solve(|k| not_a_knot_row(knots, k), &mut row[1..n - 1]);
    let first = recovered(segment_at(knots, 0), segment_at(knots, 1), row[1], row[2]);
    let last = recovered(
        segment_at(knots, n - 2),
        segment_at(knots, n - 3),
        row[n - 2],
        row[n - 3],
    );
    row[0] = first;
    row[n - 1] = last;
}

// Clamped: the slopes at the ends are given, and every knot has a row.
fn clamped(knots: &Knots, s0: f32, s1: f32, row: &mut [f32; 66])
    ensures { Stored (second_at knots.now.xs knots.now.ys knots.now.count (Clamped s0 s1)) 0
        knots.now.count row.old row.new }
{
    thomas_solve(|k| clamped_row(knots, s0, s1, k), &mut row[..knots.count]);
}

// Not-a-knot: two knots give zeros, three the parabola through them.
#[tactic(auto, unfolding(crate::specs::Second::not_a_knot_at))]
fn not_a_knot(knots: &Knots, row: &mut [f32; 66])
    ensures { Stored (not_a_knot_at knots.now.xs knots.now.ys knots.now.count) 0 knots.now.count
        row.old row.new }
{
    match knots.count {
        2 => row[..2].fill(0.0),
        3 => row[..3].fill(parabola(segment_at(knots, 0), segment_at(knots, 1))),
        _ => ends_recovered(knots, row),
    }
}

// The second derivatives at the knots, to the front of a row.
#[tactic(auto, unfolding(crate::specs::Second::second_at))]
pub fn second_derivatives(knots: &Knots, boundary: SplineBoundary, row: &mut [f32; 66])
    ensures { Stored (second_at knots.now.xs knots.now.ys knots.now.count boundary) 0
        knots.now.count row.old row.new }
{
    match boundary {
        SplineBoundary::Natural => natural(knots, row),
        SplineBoundary::Clamped { s0, s1 } => clamped(knots, s0, s1, row),
        SplineBoundary::NotAKnot => not_a_knot(knots, row),
    }
}
