// Replays a stored sample of answers: the questions are in the file stdin, and stdout holds what
// was answered: by the Rust original where heights are levels, and where they are finer by a model
// written from the papers and, where document 01 leaves the order of operations to it, from the
// original's file.
// Both were written by the program `store` of bindings/rust without the port (cargo run --release
// --bin store), which says how they read.
#![tactic(auto)]

use points::Curve;
use questions::{Fnv64, Hexadecimal};
use std::hash::Hasher;
use std::{array, io};
use tables::CurveInterpolation;

// Two digits for each of 199 bytes, and the end of the line.
type Question = questions::Question<399>;

fn kind_of(question: &Question) -> CurveInterpolation {
    let start = i16::from_le_bytes(question.bytes(2));
    let end = i16::from_le_bytes(question.bytes(4));
    tables::kind_of(question.byte(0), question.byte(1), start, end)
}

fn curve_of(question: &Question) -> Curve {
    Curve {
        xs: array::from_fn(|i| question.byte(7 + 3 * i)),
        ys: array::from_fn(|i| u16::from_le_bytes(question.bytes(8 + 3 * i))),
        count: usize::from(question.byte(6)),
    }
}

// A float's bits; all NaN count as one.
fn bits_of(v: f32) -> u32 {
    if v.is_nan() { 0x7fc0_0000 } else { v.to_bits() }
}

// The digest of a row of floats, the low byte of each first.
fn digest(floats: &[f32]) -> u64 {
    let mut digest = Fnv64::new();
    for v in floats {
        digest.write_u32(bits_of(*v));
    }
    digest.finish()
}

// The values that are looked up, from below 0 to above 1.
fn values() -> [f32; 256] {
    array::from_fn(|k| (single::count_to_float(k) - 16.0) / 224.0)
}

// Prints what a question is answered. A refused call leaves its floats as they are, and they are
// printed all the same.
fn answer(rt: &impl Print, question: &Question) -> io::Result<()> {
    let curve = curve_of(question);
    let kind = kind_of(question);
    let lut = tables::build_lut(curve, kind);
    let table = Hexadecimal(&lut.table);
    let mut coarse = [0.0; 256];
    let _ = tables::build_table(curve, kind, &mut coarse);
    let mut fine = [0.0; 4096];
    let _ = tables::build_table(curve, kind, &mut fine);
    let mut looked = values();
    let _ = lookup::lookup(&fine, &mut looked);
    let [coarse, fine, looked] = [digest(&coarse), digest(&fine), digest(&looked)];
    println!(rt; "{table} {coarse:016x} {fine:016x} {looked:016x}")
}

// The stored list, which has fewer questions than this bound. Stays in both replays of questions: a
// closure for what is done with one is no plainer than the loop.
fn main(rt: HostRuntime) -> io::Result<()> {
    let mut input = rt.stdin();
    for _ in 0..1000 {
        let Some(question) = Question::read(&mut input)? else {
            return Ok(());
        };
        answer(&rt, &question)?;
    }
    Ok(())
}
