// The fine lookup: each value is replaced by the table's height there, between
// the two samples beside it.
// It goes in blocks: all indices of a block are found before any of its values is replaced, so that
// LLVM finds several at once.
#![tactic(auto)]

ghost use Rattle.std.specs.Prelude.{◌≡◌, ◌+◌, ◌≤◌, length, replicate};
ghost use Rattle.lists.specs.Stored.{Stored};
ghost use Rattle.single.specs.Rules.{floor_of};
ghost use Rattle.lookup.specs.Lookup as L;

use answers::{Answer, Refusal};
use single::count_to_float;

// Clamped to 0..1: −0 stays, NaN gives 0.
fn clamp_unit(v: f32) -> f32
    ensures { result ≡ L.clamped_unit v }
{
    if v > 1.0 {
        return 1.0;
    }
    if v >= 0.0 {
        return v;
    }
    0.0
}

fn position(v: f32) -> f32
    ensures { result ≡ L.position v }
{
    clamp_unit(v) * 4095.0
}

// The floor of v's position, at most 4,094.
fn index(v: f32) -> u16
    ensures { result ≡ floor_of (L.position v) }
{
    single::index(position(v)) as u16
}

// The result for the value v, whose index is i.
fn blend(table: &[f32], v: f32, i: u16) -> f32
    requires { (length table.now ≡ 4096) × (i ≡ floor_of (L.position v)) }
    ensures { result ≡ L.blended table.now (L.position v) }
{
    let i = i as usize;
    let next = i + 1;
    let f = position(v) - count_to_float(i);
    (table[i] * (1.0 - f) + table[next] * f) / 255.0
}

// The indices of a block of at most 64 values.
fn indices(block: &[f32]) -> [u16; 64]
    requires { length block.now ≤ 64 }
    ensures { Stored (L.index_from block.now 0) 0 (length block.now) (replicate 64 0) result }
{
    let mut indices = [0u16; 64];
    for j in 0..block.len() {
        indices[j] = index(block[j]);
    }
    indices
}

// Replaces the values of a block, whose indices are given.
fn replace(table: &[f32], indices: &[u16; 64], block: &mut [f32])
    requires table_len { (length table.now ≡ 4096) × (length block.old ≤ 64) }
    requires stored { Stored (L.index_from block.old 0) 0 (length block.old) (replicate 64 0)
        indices.now }
    ensures { Stored (L.looked table.now block.old) 0 (length block.old) block.old block.new }
{
    for j in 0..block.len() {
        let v = block[j];
        block[j] = blend(table, v, indices[j]);
    }
}

// Replaces every value. A table that has not 4,096 entries is refused, and the values stay.
// Stays: blocks by place. After `chunks_mut` a proof knows a slice's length alone, by its contract.
pub fn lookup(table: &[f32], values: &mut [f32]) -> Answer
    ensures { L.LookupCall table.now values.old result values.new }
{
    if table.len() != Refusal::FINE_TABLE_LENGTH {
        return Err(Refusal::TableLength);
    }
    let end = values.len();
    for at in (0..end).step_by(64) {
        let n = (end - at).min(64);
        let indices = indices(&values[at..at + n]);
        replace(table, &indices, &mut values[at..at + n]);
    }
    Ok(())
}
