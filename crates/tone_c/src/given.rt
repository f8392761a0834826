// What a caller gives as bytes and numbers: points and a kind.
ghost use Rattle.std.specs.Prelude.{◌≡◌, IfOk};
ghost use Rattle.answers.specs.Numbers.{answer_of};
ghost use Rattle.answers.specs.Checks.{first_refusal};
ghost use Rattle.points.specs.Points.{list_of};
ghost use Rattle.tables.specs.Kinds.{kind_of};
ghost use Rattle.tone_c.specs.Boundary.{pairs_of, given_checks};

use answers::Refusal;
use points::{Curve, Heights, check_count};
use records::point_lists::{Edition, point_bytes, read_points};
use tables::{CurveInterpolation, kind_from};

// The points as a list and the kind, where both pass: 3, 20, then 5. What is left over of the bytes
// is no point.
pub fn curve_of(
    points: &[u8],
    kind: u8,
    tension: u8,
    start_slope: i16,
    end_slope: i16,
) -> Result<(Curve, CurveInterpolation), Refusal>
    ensures answer { answer_of result ≡ first_refusal (given_checks points.now kind) }
    ensures list { IfOk result (λ given. list_of given.0 ≡ pairs_of points.now) }
    ensures kind { IfOk result (λ given. given.1 ≡ kind_of kind «tension» start_slope end_slope) }
{
    let count = points.len() / point_bytes(Edition::Two);
    check_count(count)?;
    let curve = read_points(Edition::Two, points, count);
    curve.check_heights(Heights::Fine)?;
    let interpolation = kind_from(kind, tension, start_slope, end_slope)?;
    Ok((curve, interpolation))
}
