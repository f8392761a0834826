// Knots in two rows.
ghost use Rattle.std.specs.Prelude.{◌≤◌};

// The first count places of each row hold knots, two at least; behind them are zeros.
// Stays: document 01's "arrays of 66 floats for x, height, tangent and the solver's rows".
// Its methods stay in lib.rt: they cite specs/Knots, which names the struct, and a struct with
// ghost fields takes in every `ghost use` of its file.
#[derive(Clone, Copy)]
pub struct Knots {
    pub xs: [f32; 66],
    pub ys: [f32; 66],
    pub count: usize,
    pub ghost two: { 2 ≤ count },
    pub ghost room: { count ≤ 66 },
}
