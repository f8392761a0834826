// The kind of the record: its number, then the tension or the slopes that it carries.
ghost use Rattle.std.specs.Prelude.{◌≡◌, [], ◌∷◌};
ghost use Rattle.answers.specs.Checks.{first_refusal};
ghost use Rattle.records.specs.Kinds.{unnamed_kind, stored_slope, kind_check, read_number};
ghost use Rattle.records.specs.Kinds.{read_tension, read_slopes, read_carried, read_kind};
ghost use Rattle.records.specs.Views.{parsed};

use crate::map::has_bit;
use answers::{Answer, Refusal};
use tables::{CurveInterpolation, carries_slopes, carries_tension, kind_bits, kind_of};

// The kind of a record that names none: 3 where its bit 7 says "new default", 2 without it.
pub fn unnamed_kind(newer: bool) -> CurveInterpolation
    ensures { result ≡ unnamed_kind newer }
{
    if newer {
        CurveInterpolation::MonotoneCubicBox
    } else {
        CurveInterpolation::MonotoneCubic
    }
}

// 5, of a kind's number.
// Stays: of a number, the record's byte; 6 is found by it before what the kind carries is read.
pub fn check_kind(kind: u8) -> Answer
    ensures { result ≡ first_refusal (kind_check kind ∷ []) }
{
    if CurveInterpolation::LAST_KIND < kind {
        return Err(Refusal::UnknownKind);
    }
    Ok(())
}

// The kind byte where it is there; else the number of the unnamed kind.
// Stays: present is the map's bit; no value is beside it, so an Option would hold nothing.
#[tactic(auto, unfolding(crate::specs::Kinds::read_number))]
fn read_number(
    rest: &[u8],
    present: bool,
    unnamed: CurveInterpolation,
) -> Result<(u8, &[u8]), Refusal>
    ensures { parsed result ≡ read_number unnamed present rest.now }
{
    if !present {
        return Ok((unnamed.number(), rest));
    }
    let Some((kind, rest)) = rest.split_first() else {
        return Err(Refusal::RecordTruncated);
    };
    check_kind(*kind)?;
    Ok((*kind, rest))
}

// A kind that carries a tension, and one that carries slopes.
#[tactic(auto, unfolding(crate::specs::Kinds::read_tension))]
fn read_tension(rest: &[u8], k: u8) -> Result<(CurveInterpolation, &[u8]), Refusal>
    ensures { parsed result ≡ read_tension k rest.now }
{
    let Some((tension, rest)) = rest.split_first() else {
        return Err(Refusal::RecordTruncated);
    };
    Ok((kind_of(k, *tension, 0, 0), rest))
}

// Two's complement, low byte first.
fn stored_slope(low: u8, high: u8) -> i16
    ensures { result ≡ stored_slope low high }
{
    i16::from_le_bytes([low, high])
}

#[tactic(auto, unfolding(crate::specs::Kinds::read_slopes))]
fn read_slopes(rest: &[u8], k: u8) -> Result<(CurveInterpolation, &[u8]), Refusal>
    ensures { parsed result ≡ read_slopes k rest.now }
{
    let [low, high, end_low, end_high, rest @ ..] = rest else {
        return Err(Refusal::RecordTruncated);
    };
    let start = stored_slope(*low, *high);
    let end = stored_slope(*end_low, *end_high);
    Ok((kind_of(k, 0, start, end), rest))
}

// The kind of number k, with what it carries.
#[tactic(auto, unfolding(crate::specs::Kinds::read_carried))]
fn read_carried(rest: &[u8], k: u8) -> Result<(CurveInterpolation, &[u8]), Refusal>
    ensures { parsed result ≡ read_carried k rest.now }
{
    if carries_tension(k) {
        read_tension(rest, k)
    } else if carries_slopes(k) {
        read_slopes(rest, k)
    } else {
        Ok((kind_of(k, 0, 0, 0), rest))
    }
}

// The kind: its byte, then whether bits 5 and 6 agree with it, then what it carries.
#[tactic(auto, unfolding(crate::specs::Kinds::read_kind))]
pub fn read_kind(
    rest: &[u8],
    map: u8,
    unnamed: CurveInterpolation,
) -> Result<(CurveInterpolation, &[u8]), Refusal>
    ensures { parsed result ≡ read_kind unnamed map rest.now }
{
    let (number, rest) = read_number(rest, has_bit(map, 16), unnamed)?;
    if map / 32 % 4 != kind_bits(number) {
        return Err(Refusal::FieldMismatch);
    }
    read_carried(rest, number)
}
