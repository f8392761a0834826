// The tangents of CatmullRom and Cardinal at the knots. They go to the front of a lent row.
#![tactic(auto)]

ghost use Rattle.std.specs.Prelude.{◌≡◌, ◌<◌};
ghost use Rattle.lists.specs.Stored.{Stored};
ghost use Rattle.points.specs.Knots as K;
ghost use Rattle.tangents.specs.CatmullRom as CatmullRom;
ghost use Rattle.tangents.specs.CatmullRom.{Follows};

use points::{Knot, Knots};
use segments::slope;
use single::{byte_to_float, guarded_quotient};

// The knot before knot i, or i where there is none.
fn before(i: usize) -> usize
    ensures { result ≡ K.before i }
{
    if i == 0 { 0 } else { i - 1 }
}

// The knot after knot i of n, or i where there is none.
fn after(n: usize, i: usize) -> usize
    requires { i < n }
    ensures { result ≡ K.after n i }
{
    if i + 1 == n { i } else { i + 1 }
}

// At each knot what f gives for the knots before and after it. In words the clause says: where f
// gives at each knot what a rule has there, the row holds the rule's values.
fn by_neighbours<F: Fn(Knot, Knot) -> f32>(knots: &Knots, f: F, tangents: &mut [f32; 66])
    requires { (l r : _) → F.pre f l r }
    ensures { (rule : _) → Follows (F.post f) knots.now.xs knots.now.ys knots.now.count rule
        → Stored rule 0 knots.now.count tangents.old tangents.new }
{
    let n = knots.count;
    for i in 0..n {
        tangents[i] = f(knots.at(before(i)), knots.at(after(n, i)));
    }
}

// The tangents of CatmullRom.
pub fn catmull_rom(knots: &Knots, tangents: &mut [f32; 66])
    ensures { Stored (CatmullRom.catmull_rom_at knots.now.xs knots.now.ys knots.now.count) 0
        knots.now.count tangents.old tangents.new }
{
    by_neighbours(knots, slope, tangents);
}

// 1 − c, where c is the tension q / 255.
#[tactic(auto, unfolding(crate::specs::CatmullRom::looseness))]
fn looseness(q: u8) -> f32
    ensures { result ≡ CatmullRom.looseness q }
{
    1.0 - byte_to_float(q) / 255.0
}

// The rise from l to r times the scale 1 − c, over the run.
#[tactic(auto, unfolding(crate::specs::CatmullRom::loose_slope))]
fn loose_slope(scale: f32, l: Knot, r: Knot) -> f32
    ensures { result ≡ CatmullRom.loose_slope scale l r }
{
    guarded_quotient(scale * (r.y - l.y), r.x - l.x, 0.000001)
}

// The tangents of Cardinal with the tension q.
pub fn cardinal(q: u8, knots: &Knots, tangents: &mut [f32; 66])
    ensures { Stored (CatmullRom.cardinal_at q knots.now.xs knots.now.ys knots.now.count) 0
        knots.now.count tangents.old tangents.new }
{
    let scale = looseness(q);
    by_neighbours(knots, |l, r| loose_slope(scale, l, r), tangents);
}
