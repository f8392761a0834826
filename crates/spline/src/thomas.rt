// The Thomas solve of a tridiagonal system (L. H. Thomas, 1949): the forward sweep of one row, and
// back substitution.
ghost use Rattle.std.specs.Prelude.{◌≡◌, ◌≤◌, length};
ghost use Rattle.lists.specs.Tabulate.{tabulate};
ghost use Rattle.spline.specs.Thomas as Thomas;
ghost use Rattle.spline.specs.Thomas.{swept_in, substituted};

use single::guarded_quotient;

// A row of the tridiagonal system, a x(k-1) + b x(k) + c x(k+1) = d.
#[derive(Clone, Copy)]
pub struct Row {
    pub a: f32,
    pub b: f32,
    pub c: f32,
    pub d: f32,
}

// A row after the forward sweep, x(k) + c' x(k+1) = d': above is c', right is d'.
#[derive(Clone, Copy)]
pub struct Swept {
    pub above: f32,
    pub right: f32,
}

impl Swept {
    // What is before the first row.
    pub const NONE: Swept = Swept {
        above: 0.0,
        right: 0.0,
    };
}

// One over the pivot, and 0 for a pivot below 1e-12 in size.
fn inverse(pivot: f32) -> f32
    ensures { result ≡ Thomas.inverse pivot }
{
    guarded_quotient(1.0, pivot, 1.0e-12)
}

// A row over its pivot.
#[tactic(auto, unfolding(crate::specs::Thomas::scaled))]
fn scaled(pivot: f32, c: f32, d: f32) -> Swept
    ensures { result ≡ Thomas.scaled pivot c d }
{
    let i = inverse(pivot);
    Swept {
        above: c * i,
        right: d * i,
    }
}

// The row k swept, p being the row before it.
#[tactic(auto, unfolding(crate::specs::Thomas::sweep))]
pub fn sweep(k: usize, p: Swept, r: Row) -> Swept
    ensures { result ≡ Thomas.sweep k p r }
{
    if k == 0 {
        return scaled(r.b, r.c, r.d);
    }
    scaled(r.b - r.a * p.above, r.c, r.d - r.a * p.right)
}

// Back substitution over swept rows, as many as there are unknowns, from the last one on. Stays:
// two arrays, document 01's "solver's rows".
pub fn substitute(aboves: &[f32; 66], rights: &[f32; 66], unknowns: &mut [f32])
    requires { length unknowns.old ≤ 66 }
    ensures { unknowns.new ≡ tabulate (length unknowns.old)
        (substituted (swept_in aboves.now rights.now) (length unknowns.old)) }
{
    let mut next = 0.0;
    for k in (0..unknowns.len()).rev() {
        next = rights[k] - aboves[k] * next;
        unknowns[k] = next;
    }
}
