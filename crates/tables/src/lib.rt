// Tables of a curve: the kinds of interpolation, S samples into a lent slice, and
// the byte table by value.
#![tactic(auto)]

ghost use Rattle.std.specs.Prelude.{◌≡◌, ◌≤◌, [], ◌∷◌, length, replicate};
ghost use Rattle.answers.specs.Checks.{first_refusal};
ghost use Rattle.single.specs.Constants.{𝟎};
ghost use Rattle.points.specs.Points.{list_of};
ghost use Rattle.points.specs.Joined.{TypedRows};
ghost use Rattle.tables.specs.Kinds.{
  kind_number,
  kind_of,
  kind_from,
  carries_tension,
  carries_slopes,
  kind_bits,
  carried_of,
  LegalKind,
  form_of,
  knot_value_row,
};
ghost use Rattle.tables.specs.Tables.{fine_table, bytes_of, byte_table, table_of};
ghost use Rattle.tables.specs.Tables.{
  is_table_length,
  length_check,
  BuildTableCall,
  BuildLutCall,
};

use answers::{Answer, Refusal};
use points::{Curve, Knots};
use sampling::Form;
use spline::second::second_derivatives;
use spline::{SplineBoundary, clamped_slope};

// The kinds, in the order of document 01's numbers.
#[derive(Clone, Copy, PartialEq, Eq)]
pub enum CurveInterpolation {
    Linear,
    CatmullRom,
    MonotoneCubic,
    MonotoneCubicBox,
    NaturalCubic,
    CentripetalCatmullRom,
    ChordalCatmullRom,
    Cardinal {
        tension_q8: u8,
    },
    ClampedCubic {
        start_slope_q8: i16,
        end_slope_q8: i16,
    },
    NotAKnotCubic,
}

// What a kind carries beside its number.
#[derive(Clone, Copy, PartialEq, Eq)]
pub struct Carried {
    pub tension: u8,
    pub start: i16,
    pub end: i16,
}

impl Carried {
    const NOTHING: Carried = Carried {
        tension: 0,
        start: 0,
        end: 0,
    };
}

impl CurveInterpolation {
    // The number of the last kind.
    pub const LAST_KIND: u8 = 9;

    // Stays: no From; `u8::from(kind)` would not say that this is the number in a record.
    pub fn number(self) -> u8
        ensures { result ≡ kind_number self }
    {
        match self {
            CurveInterpolation::Linear => 0,
            CurveInterpolation::CatmullRom => 1,
            CurveInterpolation::MonotoneCubic => 2,
            CurveInterpolation::MonotoneCubicBox => 3,
            CurveInterpolation::NaturalCubic => 4,
            CurveInterpolation::CentripetalCatmullRom => 5,
            CurveInterpolation::ChordalCatmullRom => 6,
            CurveInterpolation::Cardinal { tension_q8: _ } => 7,
            CurveInterpolation::ClampedCubic {
                start_slope_q8: _,
                end_slope_q8: _,
            } => 8,
            CurveInterpolation::NotAKnotCubic => 9,
        }
    }
}

// The kind of a number up to the last, with a tension and two slopes for the kinds that carry them.
// Stays beside `kind_from`: what cannot fail has no Result. No TryFrom: a number alone does not
// tell what its kind carries.
pub fn kind_of(k: u8, tension_q8: u8, start_slope_q8: i16, end_slope_q8: i16) -> CurveInterpolation
    ensures { result ≡ kind_of k tension_q8 start_slope_q8 end_slope_q8 }
{
    let in_order = [
        CurveInterpolation::Linear,
        CurveInterpolation::CatmullRom,
        CurveInterpolation::MonotoneCubic,
        CurveInterpolation::MonotoneCubicBox,
        CurveInterpolation::NaturalCubic,
        CurveInterpolation::CentripetalCatmullRom,
        CurveInterpolation::ChordalCatmullRom,
        CurveInterpolation::Cardinal { tension_q8 },
        CurveInterpolation::ClampedCubic {
            start_slope_q8,
            end_slope_q8,
        },
        CurveInterpolation::NotAKnotCubic,
    ];
    if k <= CurveInterpolation::LAST_KIND {
        in_order[k as usize]
    } else {
        CurveInterpolation::Linear
    }
}

// The same of a number that is not checked yet: 5, above the last.
pub fn kind_from(
    k: u8,
    tension_q8: u8,
    start_slope_q8: i16,
    end_slope_q8: i16,
) -> Result<CurveInterpolation, Refusal>
    ensures { result ≡ kind_from k tension_q8 start_slope_q8 end_slope_q8 }
{
    if CurveInterpolation::LAST_KIND < k {
        return Err(Refusal::UnknownKind);
    }
    Ok(kind_of(k, tension_q8, start_slope_q8, end_slope_q8))
}

// Whether the kind of this number carries a tension.
// Stays, as the two below: of numbers, as the record's bytes are; 6 is found by the number before
// what the kind carries is read.
pub fn carries_tension(k: u8) -> bool
    ensures { result ≡ carries_tension k }
{
    k == 7
}

// Whether it carries two slopes.
pub fn carries_slopes(k: u8) -> bool
    ensures { result ≡ carries_slopes k }
{
    k == 8
}

// Bits 5 and 6 that go with the kind of this number.
pub fn kind_bits(k: u8) -> u8
    ensures { result ≡ kind_bits k }
{
    if carries_tension(k) {
        1
    } else if carries_slopes(k) {
        2
    } else {
        0
    }
}

// What a kind carries; zeros where it carries nothing.
// Stays: docs/ARCHITECTURE.md names it, and its contract says that every kind is legal.
pub fn carried_by(kind: CurveInterpolation) -> Carried
    ensures { (result ≡ carried_of kind) × LegalKind kind }
{
    match kind {
        CurveInterpolation::Linear => Carried::NOTHING,
        CurveInterpolation::CatmullRom => Carried::NOTHING,
        CurveInterpolation::MonotoneCubic => Carried::NOTHING,
        CurveInterpolation::MonotoneCubicBox => Carried::NOTHING,
        CurveInterpolation::NaturalCubic => Carried::NOTHING,
        CurveInterpolation::CentripetalCatmullRom => Carried::NOTHING,
        CurveInterpolation::ChordalCatmullRom => Carried::NOTHING,
        CurveInterpolation::Cardinal { tension_q8 } => Carried {
            tension: tension_q8,
            start: 0,
            end: 0,
        },
        CurveInterpolation::ClampedCubic {
            start_slope_q8,
            end_slope_q8,
        } => Carried {
            tension: 0,
            start: start_slope_q8,
            end: end_slope_q8,
        },
        CurveInterpolation::NotAKnotCubic => Carried::NOTHING,
    }
}

// A byte table, beside the answer. Stays: "A table handed back with it is all 0", document 01.
#[derive(Clone, Copy)]
pub struct Lut {
    pub answer: Answer,
    pub table: [u8; 256],
}

// How a piece is drawn.
fn form_of(kind: CurveInterpolation) -> Form
    ensures { result ≡ form_of kind }
{
    match kind {
        CurveInterpolation::Linear => Form::Straight,
        CurveInterpolation::CatmullRom => Form::Cubic,
        CurveInterpolation::MonotoneCubic => Form::Cubic,
        CurveInterpolation::MonotoneCubicBox => Form::Cubic,
        CurveInterpolation::NaturalCubic => Form::Spline,
        CurveInterpolation::CentripetalCatmullRom => Form::Cubic,
        CurveInterpolation::ChordalCatmullRom => Form::Cubic,
        CurveInterpolation::Cardinal { tension_q8: _ } => Form::Cubic,
        CurveInterpolation::ClampedCubic {
            start_slope_q8: _,
            end_slope_q8: _,
        } => Form::Spline,
        CurveInterpolation::NotAKnotCubic => Form::Spline,
    }
}

// The values at the knots, tangents or second derivatives, to the front of a row of zeros.
fn knot_values(kind: CurveInterpolation, knots: &Knots, row: &mut [f32; 66])
    requires { row.old ≡ replicate 66 𝟎 }
    ensures { row.new ≡ knot_value_row kind knots.now.xs knots.now.ys knots.now.count }
{
    match kind {
        CurveInterpolation::Linear => {}
        CurveInterpolation::CatmullRom => tangents::catmull_rom(knots, row),
        CurveInterpolation::MonotoneCubic => monotone::cubic(knots, row),
        CurveInterpolation::MonotoneCubicBox => monotone::cubic_box(knots, row),
        CurveInterpolation::NaturalCubic => {
            second_derivatives(knots, SplineBoundary::Natural, row)
        }
        CurveInterpolation::CentripetalCatmullRom => chords::centripetal(knots, row),
        CurveInterpolation::ChordalCatmullRom => chords::chordal(knots, row),
        CurveInterpolation::Cardinal { tension_q8 } => tangents::cardinal(tension_q8, knots, row),
        CurveInterpolation::ClampedCubic {
            start_slope_q8,
            end_slope_q8,
        } => {
            let s0 = clamped_slope(start_slope_q8);
            let s1 = clamped_slope(end_slope_q8);
            second_derivatives(knots, SplineBoundary::Clamped { s0, s1 }, row)
        }
        CurveInterpolation::NotAKnotCubic => {
            second_derivatives(knots, SplineBoundary::NotAKnot, row)
        }
    }
}

// The samples of a given list, which is lent. It is not checked.
pub fn sample_curve(curve: &Curve, kind: CurveInterpolation, samples: &mut [f32])
    requires rows { TypedRows curve.now.xs curve.now.ys }
    requires counts { (2 ≤ length samples.old) × (length samples.old ≤ 4096) }
    ensures { samples.new ≡ fine_table kind (list_of curve.now) (length samples.old) }
{
    let knots = curve.given_knots();
    let mut ms = [0.0; 66];
    knot_values(kind, &knots, &mut ms);
    sampling::fill(form_of(kind), &knots, &ms, samples);
}

// Each sample to a byte.
// Stays: with `array::from_fn` the proof did not close; `search` does not go through 256 calls.
fn to_bytes(samples: &[f32; 256]) -> [u8; 256]
    ensures { result ≡ bytes_of samples.now }
{
    let mut bytes = [0; 256];
    for v in 0..256 {
        bytes[v] = single::to_byte(samples[v]);
    }
    bytes
}

// The entries of the byte table of a list, which is not checked.
pub fn entries_of(curve: Curve, kind: CurveInterpolation) -> [u8; 256]
    ensures { result ≡ byte_table kind (list_of curve) }
{
    let mut samples = [0.0; 256];
    sample_curve(&curve, kind, &mut samples);
    to_bytes(&samples)
}

// The byte table of a given list, by value; all 0 for a list that is refused.
pub fn byte_table(curve: Curve, kind: CurveInterpolation) -> [u8; 256]
    ensures { result ≡ table_of curve kind }
{
    match curve.check_given() {
        Ok(()) => entries_of(curve, kind),
        Err(_) => [0; 256],
    }
}

// Whether a fine table has so many samples.
fn is_table_length(count: usize) -> bool
    ensures { result ≡ is_table_length count }
{
    count == Refusal::TABLE_LENGTH || count == Refusal::FINE_TABLE_LENGTH
}

// 14, of a fine table of so many samples.
pub fn length_answer(count: usize) -> Answer
    ensures { result ≡ first_refusal (length_check count ∷ []) }
{
    if !is_table_length(count) {
        return Err(Refusal::TableLength);
    }
    Ok(())
}

// The fine table of a given list, into a lent slice of 256 or 4,096 samples.
pub fn build_table(curve: Curve, kind: CurveInterpolation, samples: &mut [f32]) -> Answer
    ensures { BuildTableCall curve kind samples.old result samples.new }
{
    curve.check_given()?;
    length_answer(samples.len())?;
    sample_curve(&curve, kind, samples);
    Ok(())
}

// The byte table of a given list, beside the answer.
pub fn build_lut(curve: Curve, kind: CurveInterpolation) -> Lut
    ensures { BuildLutCall curve kind result }
{
    Lut {
        answer: curve.check_given(),
        table: byte_table(curve, kind),
    }
}
