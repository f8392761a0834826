// The samples of a curve whose knots are in rows, in blocks of four. A block lies on one piece, and
// where the piece ends within it, the next piece's first block goes over what is too much: so a
// short piece takes one block, and the loop has no branch for the processor to guess wrong. Where
// each piece ends is found beforehand. Each form is a type of its own, and the code is compiled for
// each by itself.
#![tactic(auto)]

ghost use Rattle.std.specs.Prelude.{◌≡◌, ◌+◌, ◌-◌, ◌<◌, ◌≤◌, length};
ghost use Rattle.lists.specs.Tabulate.{tabulate};
ghost use Rattle.single.specs.Rules.{clamped};
ghost use Rattle.segments.specs.Segments as S;
ghost use Rattle.sampling.specs.declared.Form.{Form};
ghost use Rattle.sampling.specs.Pieces.{piece_height, height_at, sampled};
ghost use Rattle.sampling.specs.Walk.{piece_of, curve_of, EndsOf, StateOf};

use blocks::Cursor;
use points::{Knots, Piece};

mod blocks;
mod by_part;
mod ends;
mod splines;

// How a piece is drawn.
#[derive(Clone, Copy)]
pub enum Form {
    Straight,
    Cubic,
    Spline,
}

// The pieces of a curve: its knots, and the numbers at them, in rows: document 01's "arrays of 66
// floats for x, height, tangent".
#[derive(Clone, Copy)]
struct Pieces<'a> {
    knots: &'a Knots,
    values: &'a [f32; 66],
}

impl Pieces<'_> {
    // The piece i.
    fn at(self, i: usize) -> Piece
        requires { i < 65 }
        ensures { result ≡ piece_of self.entry i }
    {
        Piece {
            a: self.knots.at(i),
            b: self.knots.at(i + 1),
            p: self.values[i],
            q: self.values[i + 1],
        }
    }
}

// A form as a type.
trait Drawn {
    ghost form: { Form };

    // The sample of a piece at x.
    fn sample_at(piece: Piece, x: f32) -> f32
        ensures { result ≡ clamped (piece_height form piece x) };

    // The samples in blocks of four, as far as a block has room: the cursor that is reached.
    fn draw(pieces: Pieces<'_>, ends: &[u32; 66], step: f32, samples: &mut [f32]) -> Cursor
        requires { EndsOf pieces ends.now step (length samples.old) }
        ensures { StateOf form pieces.entry (length samples.old) result samples.new };
}

// The distance of two samples, of which there are from 2 to 4,096.
#[tactic(auto, unfolding(segments::specs::Segments::step))]
fn step_of(samples: usize) -> f32
    requires { (2 ≤ samples) × (samples ≤ 4096) }
    ensures { result ≡ S.step samples }
{
    255.0 / single::count_to_float(samples - 1)
}

// The x of sample v.
#[tactic(auto, unfolding(segments::specs::Segments::sample_at))]
fn position(step: f32, v: usize) -> f32
    requires { v ≤ 8192 }
    ensures { result ≡ S.sample_at step v }
{
    single::count_to_float(v) * step
}

// The segment of x, sought from the segment from on.
fn advance(knots: &Knots, from: usize, x: f32) -> usize
    requires { from + 1 < knots.now.count }
    ensures { (result ≡ S.seek knots.now.xs x (knots.now.count - 2 - from) from)
        × (result + 1 < knots.now.count) }
{
    let last = knots.count - 2;
    for i in from..last {
        if !(knots.xs[i + 1] < x) {
            return i;
        }
    }
    last
}

// The samples from a cursor on, one by one: those that a last block has no room for, or all.
fn rest<D: Drawn>(pieces: Pieces<'_>, step: f32, from: Cursor, samples: &mut [f32])
    requires counts { (length samples.old ≤ 4096) × (step ≡ S.step (length samples.old)) }
    requires state { StateOf D.form pieces (length samples.old) from samples.old }
    ensures { samples.new ≡ tabulate (length samples.old)
        (sampled (curve_of D.form pieces.entry) (length samples.old)) }
{
    for v in from.v..samples.len() {
        let x = position(step, v);
        let i = advance(pieces.knots, from.i, x);
        samples[v] = D::sample_at(pieces.at(i), x);
    }
}

// The samples in blocks where the ends of the pieces are found, else no sample. Whole knots and 256
// or 4,096 samples: every end is found, as trial of each x has shown.
fn begin<D: Drawn>(pieces: Pieces<'_>, step: f32, samples: &mut [f32]) -> Cursor
    requires counts { (2 ≤ length samples.old) × (length samples.old ≤ 4096)
        × (step ≡ S.step (length samples.old)) }
    ensures { StateOf D.form pieces.entry (length samples.old) result samples.new }
{
    // the last piece has no end: 8192 is past every sample
    let mut ends = [8192; 66];
    if ends::guess(pieces.knots, step, &mut ends) {
        return D::draw(pieces, &ends, step, samples);
    }
    Cursor::START
}

// All samples of the pieces.
fn fill_by<D: Drawn>(pieces: Pieces<'_>, samples: &mut [f32])
    requires counts { (2 ≤ length samples.old) × (length samples.old ≤ 4096) }
    ensures { samples.new ≡ tabulate (length samples.old)
        (sampled (curve_of D.form pieces.entry) (length samples.old)) }
{
    let step = step_of(samples.len());
    let from = begin::<D>(pieces, step, samples);
    rest::<D>(pieces, step, from, samples);
}

// All samples of the curve with these knots.
pub fn fill(form: Form, knots: &Knots, ms: &[f32; 66], samples: &mut [f32])
    requires counts { (2 ≤ length samples.old) × (length samples.old ≤ 4096) }
    ensures { samples.new ≡ tabulate (length samples.old)
        (sampled (height_at form knots.now.xs knots.now.ys ms.now knots.now.count)
        (length samples.old)) }
{
    let pieces = Pieces { knots, values: ms };
    match form {
        Form::Straight => fill_by::<by_part::Straight>(pieces, samples),
        Form::Cubic => fill_by::<by_part::Cubic>(pieces, samples),
        Form::Spline => fill_by::<splines::Spline>(pieces, samples),
    }
}
