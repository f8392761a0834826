// Single precision as document 01 has it: absolute value, clamp, to a byte, floor, the guarded
// quotient, whole numbers as floats;
// the square root in `root`. Every open function equals a definition of specs/ on every float: NaN,
// infinities and both zeros included.
#![tactic(auto)]

ghost use Rattle.std.specs.Prelude.{◌≡◌, ◌≤◌, ◌^◌};
ghost use Rattle.floats.specs.Value.{absolute};
ghost use Rattle.single.specs.Rules as R;
ghost use Rattle.single.specs.Rules.{float, clamped, held, byte_of, floor_of, guarded_quotient};

pub mod root;

// The absolute value. A difference, since it gives +0 for both zeros: a change of
// sign would make −0 of +0.
pub fn abs(x: f32) -> f32
    ensures { result ≡ absolute x }
{
    if x > 0.0 { x } else { 0.0 - x }
}

// Clamp to 0..255: −0 and NaN stay.
#[tactic(auto, unfolding(crate::specs::Rules::clamped))]
pub fn clamp(x: f32) -> f32
    ensures { result ≡ clamped x }
{
    if x < 0.0 {
        return 0.0;
    }
    if x > 255.0 {
        return 255.0;
    }
    x
}

// x kept to 0..top; NaN gives 0.
#[tactic(auto, unfolding(crate::specs::Rules::held))]
fn hold(x: f32, top: f32) -> f32
    ensures { result ≡ held top x }
{
    if x > 0.0 {
        if x < top {
            return x;
        }
        return top;
    }
    0.0
}

// To a byte: two sums leave the nearest whole number, a half to the even one, and one
// test puts the half right.
pub fn to_byte(x: f32) -> u8
    ensures { result ≡ byte_of x }
{
    let b = hold(x, 255.0);
    let t = (b + 8388608.0) - 8388608.0;
    let k = t as u8;
    if b < t + 0.5 {
        return k;
    }
    k + 1
}

// The whole part, kept to 0..4,094, as a float: the same two sums, and one less where they went up.
pub fn floor(x: f32) -> f32
    ensures { result ≡ float (floor_of x) }
{
    let b = hold(x, 4094.0);
    let t = (b + 8388608.0) - 8388608.0;
    if b < t {
        return t - 1.0;
    }
    t
}

// The same whole part as an index: the cast is exact.
pub fn index(x: f32) -> usize
    ensures { result ≡ floor_of x }
{
    (floor(x) as u16) as usize
}

// a over b, and 0 where b is smaller in size than limit.
#[tactic(auto, unfolding(crate::specs::Rules::guarded_quotient))]
pub fn guarded_quotient(a: f32, b: f32, limit: f32) -> f32
    ensures { result ≡ guarded_quotient a b limit }
{
    if abs(b) < limit { 0.0 } else { a / b }
}

// Whether d is below 1e-9 in size.
pub fn tiny(d: f32) -> bool
    ensures { result ≡ R.tiny d }
{
    abs(d) < 0.000000001
}

// A byte as a float, exactly.
pub fn byte_to_float(b: u8) -> f32
    ensures { result ≡ float b }
{
    f32::from(b)
}

// A count as a float, exactly: single precision has every whole number up to 2²⁴.
// Stays: std has no From<usize> for f32.
pub fn count_to_float(n: usize) -> f32
    requires { n ≤ 2 ^ 24 }
    ensures { result ≡ float n }
{
    (n as i32) as f32
}
