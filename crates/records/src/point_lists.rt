// A list of the record: a count byte, then x, y pairs. An edition says how a pair is stored.
ghost use Rattle.std.specs.Prelude.{◌≡◌, ◌*◌, ◌≤◌, length};
ghost use Rattle.answers.specs.Checks.{first_refusal};
ghost use Rattle.points.specs.Points.{limit, list_of};
ghost use Rattle.records.specs.PointLists.{point_bytes, point_of, pairs, count_checks};
ghost use Rattle.records.specs.PointLists.{read_list, read_field};
ghost use Rattle.records.specs.Views.{ListRead};

use answers::{Answer, Refusal};
use points::{Curve, Point, check_count};

// How a point is stored: its x, then its height, as a level in one byte, or in 256ths, low byte
// first.
#[derive(Clone, Copy)]
pub enum Edition {
    One,
    Two,
}

// How many bytes a point is. Stays a match: the cases are the paper's.
pub fn point_bytes(edition: Edition) -> usize
    ensures { result ≡ point_bytes edition }
{
    match edition {
        Edition::One => 2,
        Edition::Two => 3,
    }
}

// The point at the front: its x, then its height.
// Stays: a match for each point, by the cases of `point_of`; a closure or a trait is no plainer.
fn read_point(edition: Edition, bytes: &[u8]) -> Point
    requires { point_bytes edition ≤ length bytes.now }
    ensures { result ≡ point_of edition bytes.now }
{
    match edition {
        Edition::One => Point {
            x: bytes[0],
            y: u16::from_le_bytes([0, bytes[1]]),
        },
        Edition::Two => Point {
            x: bytes[0],
            y: u16::from_le_bytes([bytes[1], bytes[2]]),
        },
    }
}

// The first n points.
pub fn read_points(edition: Edition, bytes: &[u8], n: usize) -> Curve
    requires { (n ≤ limit) × (n * point_bytes edition ≤ length bytes.now) }
    ensures { (list_of result ≡ pairs edition n bytes.now) × (result.count ≡ n) }
{
    let stride = point_bytes(edition);
    let mut curve = Curve {
        xs: [0; 64],
        ys: [0; 64],
        count: n,
    };
    for i in 0..n {
        let point = read_point(edition, &bytes[i * stride..]);
        curve.xs[i] = point.x;
        curve.ys[i] = point.y;
    }
    curve
}

// 3, of the count of a list of at least so many points.
fn check_stored_count(n: usize, least: usize) -> Answer
    ensures { result ≡ first_refusal (count_checks least n) }
{
    if n < least {
        return Err(Refusal::PointCount);
    }
    check_count(n)
}

// A list of at least so many points: its count, then its points.
fn read_curve(rest: &[u8], least: usize) -> Result<(Curve, &[u8]), Refusal>
    ensures { ListRead (read_list least rest.now) result }
{
    let Some((n, rest)) = rest.split_first() else {
        return Err(Refusal::RecordTruncated);
    };
    let n = *n as usize;
    check_stored_count(n, least)?;
    let bytes = n * point_bytes(Edition::One);
    if rest.len() < bytes {
        return Err(Refusal::RecordTruncated);
    }
    let curve = read_points(Edition::One, rest, n);
    if !curve.is_rising() {
        return Err(Refusal::PointsNotRising);
    }
    Ok((curve, &rest[bytes..]))
}

// A list whose field is there only where its bit is set.
// Stays: present is the map's bit; no value is beside it, so an Option would hold nothing.
#[tactic(auto, using(crate::proofs::Lists::empty_passes))]
pub fn read_field(rest: &[u8], present: bool, least: usize) -> Result<(Curve, &[u8]), Refusal>
    ensures { ListRead (read_field present least rest.now) result }
{
    if present {
        read_curve(rest, least)
    } else {
        Ok((Curve::empty(), rest))
    }
}
