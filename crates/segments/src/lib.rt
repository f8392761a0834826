// The straight line between two knots, unclamped.
#![tactic(auto)]

ghost use Rattle.std.specs.Prelude.{◌≡◌};
ghost use Rattle.segments.specs.Straight as S;

use points::Knot;
use single::guarded_quotient;

// The part of the segment from a to b that lies left of x.
#[tactic(auto, unfolding(crate::specs::Straight::part))]
pub fn part(a: Knot, b: Knot, x: f32) -> f32
    ensures { result ≡ S.part a b x }
{
    guarded_quotient(x - a.x, b.x - a.x, 0.000001)
}

// The straight piece from a to b, at t.
#[tactic(auto, unfolding(crate::specs::Straight::straight))]
pub fn straight(a: Knot, b: Knot, t: f32) -> f32
    ensures { result ≡ S.straight a b t }
{
    a.y + (b.y - a.y) * t
}

// The rise from l to r over the run.
#[tactic(auto, unfolding(crate::specs::Straight::slope))]
pub fn slope(l: Knot, r: Knot) -> f32
    ensures { result ≡ S.slope l r }
{
    guarded_quotient(r.y - l.y, r.x - l.x, 0.000001)
}
