// The tangents of MonotoneCubic and MonotoneCubicBox at the knots (Fritsch and Carlson 1980). In
// their letters: Δ is the secant of a segment, alpha and beta are the tangents at its ends over Δ,
// and tau is 3 / √(alpha² + beta²). The tangents go to the front of a lent row.
#![tactic(auto)]

ghost use Rattle.std.specs.Prelude.{◌≡◌, ◌+◌, ◌<◌, ℕ};
ghost use Rattle.floats.specs.Notation.{◌⊘◌};
ghost use Rattle.lists.specs.Stored.{Stored};
ghost use Rattle.monotone.specs.Monotone as Monotone;
ghost use Rattle.monotone.specs.Monotone.{limited, Limits};

use points::Knots;
use segments::slope;
use single::root::sqrt;
use single::tiny;

// The tangents at the two ends of a segment.
#[derive(Clone, Copy)]
pub struct Tangents {
    pub left: f32,
    pub right: f32,
}

impl Tangents {
    // Both 0.
    const FLAT: Tangents = Tangents {
        left: 0.0,
        right: 0.0,
    };
}

// Δ of the segment i.
#[tactic(auto, unfolding(crate::specs::Monotone::secant_at))]
fn secant(knots: &Knots, i: usize) -> f32
    requires { i + 1 < 66 }
    ensures { result ≡ Monotone.secant_at knots.now.xs knots.now.ys i }
{
    slope(knots.at(i), knots.at(i + 1))
}

// The tangent m, or 0 where its ratio to the secant is negative.
fn nonnegative(m: f32, ratio: f32) -> f32
    ensures { result ≡ Monotone.nonnegative m ratio }
{
    if ratio < 0.0 { 0.0 } else { m }
}

// The same, and 3 secants where the ratio is above 3.
fn capped(m: f32, ratio: f32, delta: f32) -> f32
    ensures { result ≡ Monotone.capped m ratio delta }
{
    if ratio > 3.0 {
        3.0 * delta
    } else {
        nonnegative(m, ratio)
    }
}

// The tangents l and r of a segment, each capped by itself.
#[tactic(auto, unfolding(crate::specs::Monotone::boxed))]
fn by_box(delta: f32, l: f32, r: f32, beta: f32) -> Tangents
    requires { beta ≡ r ⊘ delta }
    ensures { result ≡ Monotone.boxed delta l r }
{
    let alpha = l / delta;
    Tangents {
        left: capped(l, alpha, delta),
        right: capped(r, beta, delta),
    }
}

// The same tangents, both drawn back to the circle alpha² + beta² = 9 where they lie outside it, by
// alpha and beta as they are before the zeroing.
#[tactic(auto, unfolding(crate::specs::Monotone::circled))]
fn by_circle(delta: f32, l: f32, r: f32, beta: f32) -> Tangents
    requires { beta ≡ r ⊘ delta }
    ensures { result ≡ Monotone.circled delta l r }
{
    let alpha = l / delta;
    let left = nonnegative(l, alpha);
    let right = nonnegative(r, beta);
    let s = alpha * alpha + beta * beta;
    if s > 9.0 {
        let tau = 3.0 / sqrt(s);
        return Tangents {
            left: tau * alpha * delta,
            right: tau * beta * delta,
        };
    }
    Tangents { left, right }
}

// The tangents by what limits those at the ends of a segment, segment by segment from the left. A
// secant near 0 sets both to 0. m is the tangent of knot i as the segments before it leave it. What
// does not wait for m is found before, in rows: with m / d and r / d in one turn LLVM makes one
// vector of them, and each turn waits for the one before it. In words the clause says: where
// `limit` gives what one of the two kinds has for every segment, the tangents are that kind's.
fn walk<F: Fn(f32, f32, f32, f32) -> Tangents>(knots: &Knots, limit: F, tangents: &mut [f32; 66])
    requires { (delta l r : _) → F.pre limit delta l r (r ⊘ delta) }
    ensures { (box : _) → Limits (F.post limit) box → Stored
        (Monotone.monotone_at box knots.now.xs knots.now.ys knots.now.count) 0 knots.now.count
        tangents.old tangents.new }
{
    let last = knots.count - 1;
    let ds = knots.per_segment(|i| secant(knots, i));
    let mut rs = knots.per_segment(|i| 0.5 * (ds[i] + ds[i + 1]));
    rs[last - 1] = ds[last - 1];
    let bs = knots.per_segment(|i| rs[i] / ds[i]);
    let mut m = ds[0];
    for i in 0..last {
        let t = if tiny(ds[i]) {
            Tangents::FLAT
        } else {
            limit(ds[i], m, rs[i], bs[i])
        };
        tangents[i] = t.left;
        m = t.right;
    }
    tangents[last] = m;
}

// The tangents of MonotoneCubic.
pub fn cubic(knots: &Knots, tangents: &mut [f32; 66])
    ensures { Stored (Monotone.circle_at knots.now.xs knots.now.ys knots.now.count) 0
        knots.now.count tangents.old tangents.new }
{
    walk(knots, by_circle, tangents)
}

// The tangents of MonotoneCubicBox.
pub fn cubic_box(knots: &Knots, tangents: &mut [f32; 66])
    ensures { Stored (Monotone.box_at knots.now.xs knots.now.ys knots.now.count) 0
        knots.now.count tangents.old tangents.new }
{
    walk(knots, by_box, tangents)
}
