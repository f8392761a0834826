// Whether two sets of curves are the same. `same` answers for any two sets,
// whatever their lists claim.
// Stays: functions, not PartialEq of `Curves`; the types are of other crates, and `Same` passes
// over what is past a count and behind an absent mark.
#![tactic(auto)]

ghost use Rattle.std.specs.Prelude.{◌≡◌, ◌≤◌, take};
ghost use Rattle.points.specs.Points.{places_of};
ghost use Rattle.sets.specs.Same.{Same, SameCurve, SameChannel};
ghost use Rattle.sameness.specs.Decides.{Decides};

use points::Curve;
use sets::{Channel, Curves};

// The first n points of two lists.
fn same_points(a: Curve, b: Curve, n: usize) -> bool
    requires { n ≤ 64 }
    ensures { Decides (take n (places_of a) ≡ take n (places_of b)) result }
{
    (a.xs[..n] == b.xs[..n]) & (a.ys[..n] == b.ys[..n])
}

// Two lists, as far as their counts claim; one that claims more than 64 points has 64.
fn same_curve(a: Curve, b: Curve) -> bool
    ensures { Decides (SameCurve a b) result }
{
    if a.count != b.count {
        return false;
    }
    let n = a.count.min(Curve::LIMIT);
    same_points(a, b, n)
}

// Two colours; what is behind an absent mark is ignored.
fn same_channel(a: Channel, b: Channel) -> bool
    ensures { Decides (SameChannel a b) result }
{
    if a.present {
        b.present & same_curve(a.curve, b.curve)
    } else {
        !b.present
    }
}

// Two sets: lists, colours present, and the kind with its tension or slopes.
pub fn same(a: Curves, b: Curves) -> bool
    ensures { Decides (Same a b) result }
{
    let master = same_curve(a.master, b.master);
    let red = same_channel(a.red, b.red);
    let green = same_channel(a.green, b.green);
    let blue = same_channel(a.blue, b.blue);
    let i = a.interpolation;
    let j = b.interpolation;
    master & red & green & blue & (i == j)
}
