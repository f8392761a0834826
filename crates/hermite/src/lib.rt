// The cubic piece between two knots with a tangent at each.
#![tactic(auto)]

ghost use Rattle.std.specs.Prelude.{◌≡◌};
ghost use Rattle.hermite.specs.Hermite as Hermite;

use points::Piece;

// The cubic piece with a tangent at each of its knots, at t.
#[tactic(auto, unfolding(crate::specs::Hermite::hermite))]
pub fn hermite(piece: Piece, t: f32) -> f32
    ensures { result ≡ Hermite.hermite piece.a piece.b piece.p piece.q t }
{
    let w = piece.b.x - piece.a.x;
    let h00 = (1.0 + 2.0 * t) * (1.0 - t) * (1.0 - t);
    let h10 = t * (1.0 - t) * (1.0 - t);
    let h01 = t * t * (3.0 - 2.0 * t);
    let h11 = t * t * (t - 1.0);
    h00 * piece.a.y + h10 * w * piece.p + h01 * piece.b.y + h11 * w * piece.q
}
