// The square root of IEEE 754, correctly rounded, over whole numbers: a guess, then steps of one
// until the squares on both sides agree.
ghost use Rattle.std.specs.Prelude.{◌≡◌, ◌+◌, ◌*◌, ◌^◌, ◌≤◌, ◌<◌};
ghost use Rattle.single.specs.Root.{root_of, root_of_units};

// A line that falls from c by d while z goes from 0 to 2 ^ 23.
fn falling(c: u64, d: u64, z: u64) -> u64
    requires { (d ≤ c) × (c < 2 ^ 24) × (z < 2 ^ 23) }
    ensures { result ≤ c }
{
    c - d * z / 8388608
}

// One that rises. Stays beside `falling`: a sign is no parameter of whole numbers without one.
fn rising(c: u64, d: u64, z: u64) -> u64
    requires { (c < 2 ^ 24) × (d < 2 ^ 24) × (z < 2 ^ 23) }
    ensures { result ≤ c + d }
{
    c + d * z / 8388608
}

// About 2 ^ 23 over the root of 1 + z / 2 ^ 23, by a polynomial of degree 5 that stays below it, by
// 31 parts in a million at most. Three lines are joined by the square of z (Estrin's scheme):
// Horner's five steps would wait for each other. Only its range is proved: a guess needs no more.
fn inverse_root(z: u64) -> u64
    requires { z < 2 ^ 23 }
    ensures { result < 3 * 2 ^ 22 }
{
    let square = z * z / 8388608;
    let low = falling(8388400, 4186808, z);
    let middle = falling(3049396, 2141896, z);
    let high = falling(1085806, 263435, z);
    rising(low, rising(middle, high, square), square)
}

// A number near the root of m, which is a * 2 ^ 23, doubled where odd is 1: s + (m - s * s) / (2 *
// s), Heron's step from an s just below the root.
// Only its range is proved: `raised` and `lowered` make any guess right. After this one they take a
// step for one m in seventy.
fn guess(a: u64, odd: u64, m: u64) -> u64
    requires { (2 ^ 23 ≤ a) × (a < 2 ^ 24) × (odd < 2) × (m < 2 ^ 48) }
    ensures { result ≤ 2 ^ 26 }
{
    // the root of 2 is about 46341 / 32768, one over it 23170 / 32768
    let y = inverse_root(a - 8388608);
    let s = a * (32768 + 13573 * odd) * y / 274877906944;
    if m < s * s {
        return s;
    }
    let inverse = y / 256 * (32768 - 9598 * odd) / 32768;
    s + ((m - s * s) * inverse + 274877906944) / 549755813888
}

// The first number from p on that is not too small: the root of m is not past
// the half-way to the next.
// Stays: r is searched, and there is no end to count to.
fn raised(m: u64, p: u64) -> u64
    requires { (m < 2 ^ 48) × (p ≤ 2 ^ 26) }
    ensures { (m ≤ result * result + result) × (result ≤ 2 ^ 26) }
{
    let mut r = p;
    while r * r + r < m {
        r += 1;
    }
    r
}

// From a p that is not too small, the number nearest to the root of m.
// Stays: r is searched, and there is no end to count to.
fn lowered(m: u64, p: u64) -> u64
    requires { (0 < m) × (m < 2 ^ 48) × (m ≤ p * p + p) × (p ≤ 2 ^ 26) }
    ensures { (result * result < m + result) × (m ≤ result * result + result) }
{
    let mut r = p;
    while m + r <= r * r {
        r -= 1;
    }
    r
}

// The root of a * 2 ^ e / 2 ^ 24 units, a being of 24 digits. p has 24 digits too, and the first of
// them adds one to the pattern's exponent.
fn root_of(a: u32, e: u32) -> f32
    requires { (2 ^ 23 ≤ a) × (a < 2 ^ 24) × (e ≤ 280) }
    ensures { result ≡ root_of_units (a * 2 ^ (e + 125)) }
{
    let odd = (e % 2) as u64;
    let m = (a as u64) * 8388608 * (1 + odd);
    let p = lowered(m, raised(m, guess(a as u64, odd, m)));
    f32::from_bits((51 + e / 2) * 8388608 + (p as u32))
}

// By how many digits t falls short of 24.
fn missing_digits(t: u32) -> u32
    requires { (0 < t) × (t < 2 ^ 23) }
    ensures { (2 ^ 23 ≤ t * 2 ^ result) × (t * 2 ^ result < 2 ^ 24) × (result ≤ 24) }
{
    t.leading_zeros() - 8
}

// The square root of x.
pub fn sqrt(x: f32) -> f32
    ensures { result ≡ root_of x }
{
    if x.is_nan() {
        return x;
    }
    let b = x.to_bits();
    if b >= 0x7f80_0000 {
        if b > 0x8000_0000 {
            return 0.0 / 0.0;
        }
        // the infinity and -0 are their own roots
        return x;
    }
    if b < 0x0080_0000 {
        if b == 0 {
            return x;
        }
        let z = missing_digits(b);
        return root_of(b << z, 24 - z);
    }
    root_of(b % 8388608 + 8388608, b / 8388608 + 23)
}
