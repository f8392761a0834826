// The way through the samples in blocks of four.
ghost use Rattle.std.specs.Prelude.{◌≡◌, false, ℕ, Float, ◌+◌, ◌≤◌, ◌<◌, length};
ghost use Rattle.lists.specs.Stored.{Stored};
ghost use Rattle.points.specs.Knots.{at, too_thin};
ghost use Rattle.segments.specs.Straight as Straight;
ghost use Rattle.sampling.specs.Walk.{next_cursor, parts_of, piece_of};

use crate::{Pieces, position};
use points::Piece;

// Where the drawing of the samples is: at the next sample, v, and a piece, i, that it does not
// lie left of.
#[derive(Clone, Copy)]
pub struct Cursor {
    pub v: usize,
    pub i: usize,
}

impl Cursor {
    pub const START: Cursor = Cursor { v: 0, i: 0 };
}

// The cursor after a block: four samples on, or where the piece ends before that,
// its end and the next piece.
#[tactic(auto, unfolding(crate::specs::Walk::next_cursor))]
pub fn next(ends: &[u32; 66], p: Cursor) -> Cursor
    requires { (p.v ≤ 4096) × (p.i < 65) }
    ensures { result ≡ next_cursor ends.now p }
{
    let end = ends[p.i] as usize;
    if p.v + 4 < end {
        return Cursor { v: p.v + 4, i: p.i };
    }
    Cursor {
        v: p.v.max(end),
        i: p.i + 1,
    }
}

// The part of a piece that lies left of x. No guard: the piece is not too thin.
#[tactic(auto, unfolding(segments::specs::Straight::part, single::specs::Rules::guarded_quotient))]
fn part(piece: Piece, x: f32) -> f32
    requires { too_thin piece.a.x piece.b.x ≡ false }
    ensures { result ≡ Straight.part piece.a piece.b x }
{
    (x - piece.a.x) / (piece.b.x - piece.a.x)
}

// The parts of the piece at p left of the four samples there.
pub fn parts(pieces: Pieces<'_>, step: f32, p: Cursor) -> [f32; 4]
    requires { (too_thin (at pieces.knots.now.xs p.i) (at pieces.knots.now.xs (p.i + 1)) ≡ false)
        × (p.v ≤ 4096) × (p.i < 65) }
    ensures { result ≡ parts_of (piece_of pieces.entry p.i) step p.v }
{
    let piece = pieces.at(p.i);
    let v = p.v;
    [
        part(piece, position(step, v)),
        part(piece, position(step, v + 1)),
        part(piece, position(step, v + 2)),
        part(piece, position(step, v + 3)),
    ]
}

// Four samples from v on: sample v + j is what the function gives of j.
pub fn four<F: Fn(usize) -> f32>(sample: F, v: usize, samples: &mut [f32])
    requires room { (v + 4 ≤ length samples.old) × (length samples.old ≤ 4096) }
    requires callable { (j : ℕ) → j < 4 → F.pre sample j }
    ensures { (f : ℕ → Float)
        → ((j : ℕ) (y : Float) → j < 4 → F.post sample j y → y ≡ f (v + j))
        → Stored f v (v + 4) samples.old samples.new }
{
    for j in 0..4 {
        samples[v + j] = sample(j);
    }
}
