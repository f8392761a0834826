// Forms whose samples are drawn by parts: the height of a piece is found by the part of it that
// lies left of an x.
ghost use Rattle.std.specs.Prelude.{◌≡◌, Float};
ghost use Rattle.single.specs.Rules.{clamped};
ghost use Rattle.segments.specs.Straight.{part};
ghost use Rattle.sampling.specs.declared.Form.{Form};
ghost use Rattle.sampling.specs.declared.Form.TheVariants as F;
ghost use Rattle.points.specs.declared.Piece.{Piece};
ghost use Rattle.sampling.specs.Pieces.{piece_height};
ghost use Rattle.sampling.specs.Walk.{straight_sample, cubic_sample};
ghost use Rattle.sampling.specs.ByPart.{straight_is, cubic_is};

use crate::blocks::{Cursor, four, next, parts};
use crate::{Drawn, Pieces};
use points::Piece;

// A form by parts.
pub trait ByPart {
    ghost by_form: { Form };

    ghost at_part: { Piece → Float → Float };

    // The sample at the part t.
    fn sample(piece: Piece, t: f32) -> f32
        ensures { result ≡ at_part piece t };

    ghost is: { (piece : Piece) (x : Float)
        → at_part piece (part piece.a piece.b x) ≡ clamped (piece_height by_form piece x) };
}

// The straight pieces.
pub struct Straight;

// The cubic pieces with a tangent at each knot.
pub struct Cubic;

impl ByPart for Straight {
    ghost by_form = { F.Straight };

    ghost at_part = { straight_sample };

    ghost is = { straight_is };

    fn sample(piece: Piece, t: f32) -> f32 {
        single::clamp(segments::straight(piece.a, piece.b, t))
    }
}

impl ByPart for Cubic {
    ghost by_form = { F.Cubic };

    ghost at_part = { cubic_sample };

    ghost is = { cubic_is };

    fn sample(piece: Piece, t: f32) -> f32 {
        let height = hermite::hermite(piece, t);
        single::clamp(height)
    }
}

impl<P: ByPart> Drawn for P {
    ghost form = { P.by_form };

    fn sample_at(piece: Piece, x: f32) -> f32 {
        P::sample(piece, segments::part(piece.a, piece.b, x))
    }

    // The parts of the next block are found before this one is drawn, since a quotient takes long.
    // `Spline` has a loop of its own: it goes by coefficients that are found before all blocks.
    fn draw(pieces: Pieces<'_>, ends: &[u32; 66], step: f32, samples: &mut [f32]) -> Cursor {
        let count = samples.len();
        let mut p = Cursor::START;
        let mut t = parts(pieces, step, p);
        // Stays: a turn goes four samples on or to the end of a piece, and stops short of a block
        // without room.
        while p.v + 4 <= count {
            let q = next(ends, p);
            let u = parts(pieces, step, q);
            let piece = pieces.at(p.i);
            four(|j| P::sample(piece, t[j]), p.v, samples);
            p = q;
            t = u;
        }
        p
    }
}
