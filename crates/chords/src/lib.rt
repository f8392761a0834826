// The tangents of CentripetalCatmullRom and ChordalCatmullRom at the knots, by the chords between
// them. They go to the front of a lent row.
#![tactic(auto)]

ghost use Rattle.std.specs.Prelude.{◌≡◌};
ghost use Rattle.lists.specs.Stored.{Stored};
ghost use Rattle.chords.specs.Alpha as Alpha;
ghost use Rattle.chords.specs.Alpha.{Spaces};

use points::{Knot, Knots};
use single::root::sqrt;
use single::{guarded_quotient, tiny};

// The chord from a to b.
#[tactic(auto, unfolding(crate::specs::Alpha::chord))]
fn chord(a: Knot, b: Knot) -> f32
    ensures { result ≡ Alpha.chord a b }
{
    let dx = b.x - a.x;
    let dy = b.y - a.y;
    sqrt(dx * dx + dy * dy)
}

// p over d, and 0 for a tiny d.
fn over(p: f32, d: f32) -> f32
    ensures { result ≡ Alpha.over p d }
{
    guarded_quotient(p, d, 0.000000001)
}

// The three terms at an inner knot, by the rises and spacings to the right,
// across and from the left.
#[tactic(auto, unfolding(crate::specs::Alpha::three_terms))]
fn three_terms(right: f32, across: f32, left: f32, dr: f32, ds: f32, dl: f32) -> f32
    ensures { result ≡ Alpha.three_terms right across left dr ds dl }
{
    if tiny(dl) | tiny(dr) | tiny(ds) {
        return 0.0;
    }
    right / dr - across / ds + left / dl
}

// The tangent at an end of the curve, by the segment from a to b there, whose spacing is d.
fn end_tangent(a: Knot, b: Knot, d: f32) -> f32
    ensures { result ≡ Alpha.end_tangent a b d }
{
    over(over(b.y - a.y, d), over(b.x - a.x, d))
}

// The tangent at a knot c between l and r, with the spacings of l and c, of
// all three, and of c and r.
fn inner_tangent(l: Knot, c: Knot, r: Knot, dl: f32, ds: f32, dr: f32) -> f32
    ensures { result ≡ Alpha.inner_tangent l c r dl ds dr }
{
    let rise = three_terms(r.y - c.y, r.y - l.y, c.y - l.y, dr, ds, dl);
    over(rise, over(r.x - l.x, ds))
}

// The tangents by the spacing that belongs to a chord. The spacings have a loop of their own, so
// that no root waits for the root of the chord. In words the clause says: where `spacing` gives
// what one of the two kinds has for every chord, the tangents are that kind's.
fn by_spacing<F: Fn(f32) -> f32>(knots: &Knots, spacing: F, tangents: &mut [f32; 66])
    requires { (chord : _) → F.pre spacing chord }
    ensures { (centripetal : _) → Spaces (F.post spacing) centripetal → Stored
        (Alpha.alpha_at centripetal knots.now.xs knots.now.ys knots.now.count) 0 knots.now.count
        tangents.old tangents.new }
{
    let chords = knots.per_segment(|i| chord(knots.at(i), knots.at(i + 1)));
    let ways = knots.per_segment(|i| spacing(chords[i]));
    let last = knots.count - 1;
    tangents[0] = end_tangent(knots.at(0), knots.at(1), ways[0]);
    for i in 1..last {
        let dl = ways[i - 1];
        let dr = ways[i];
        let l = knots.at(i - 1);
        let c = knots.at(i);
        let r = knots.at(i + 1);
        tangents[i] = inner_tangent(l, c, r, dl, dl + dr, dr);
    }
    tangents[last] = end_tangent(knots.at(last - 1), knots.at(last), ways[last - 1]);
}

// The tangents of CentripetalCatmullRom.
pub fn centripetal(knots: &Knots, tangents: &mut [f32; 66])
    ensures { Stored (Alpha.centripetal_at knots.now.xs knots.now.ys knots.now.count) 0
        knots.now.count tangents.old tangents.new }
{
    by_spacing(knots, sqrt, tangents);
}

// The tangents of ChordalCatmullRom.
pub fn chordal(knots: &Knots, tangents: &mut [f32; 66])
    ensures { Stored (Alpha.chordal_at knots.now.xs knots.now.ys knots.now.count) 0
        knots.now.count tangents.old tangents.new }
{
    by_spacing(knots, |chord| chord, tangents);
}
