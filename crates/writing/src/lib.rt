// Writes the record of a set, edition 1, into a lent buffer.
// The record is made by value, so that its length is known before the first
// byte of the buffer changes.
#![tactic(auto)]

ghost use Rattle.std.specs.Prelude.{◌≡◌, cond, ◌≤◌};
ghost use Rattle.points.specs.declared.Heights.TheVariants.{Whole};
ghost use Rattle.points.specs.Points.{limit, list_of};
ghost use Rattle.sets.specs.Sets.{view_of, channel_of, curve_answer, channel_answer, set_answer};
ghost use Rattle.tables.specs.Kinds.{LegalKind};
ghost use Rattle.writing.specs.Encode.{
  pair_bytes,
  field_bytes,
  master_field,
  names_kind,
  kind_bytes,
  slope_bytes,
  carried_bytes,
  map_of,
  encode,
};
ghost use Rattle.writing.specs.Statements.{Room, Appended, WriteRecordCall};
ghost use Rattle.answers.specs.Numbers.{done};

use answers::{Refusal, room_for};
use arrayvec::ArrayVec;
use points::{Curve, Heights};
use records::kinds::unnamed_kind;
use sets::{Channel, Curves};
use tables::{CurveInterpolation, carried_by, carries_slopes, carries_tension, kind_bits};

// The most bytes that a record has: the map, four lists of a count and 64
// points, the kind, two slopes. That it is no more is `longest_said` of specs/Lengths; a draft asks
// only for room.
pub const LONGEST_RECORD: usize = 1 + 4 * (1 + 2 * Curve::LIMIT) + 1 + 4;

// The bytes of a record, as far as they are written.
type Draft = ArrayVec<u8, LONGEST_RECORD>;

// An x and a y for each point. The y is a level: heights are multiples of 256 here.
fn push_pairs(draft: &mut Draft, curve: &Curve)
    requires few { curve.now.count ≤ limit }
    requires room { Room (pair_bytes (list_of curve.now)) draft.old }
    ensures { Appended (pair_bytes (list_of curve.now)) draft.old draft.new }
{
    for i in 0..curve.count {
        draft.push(curve.xs[i]);
        draft.push((curve.ys[i] / 256) as u8);
    }
}

// A list, where it is present: its count, then its points.
fn push_field(draft: &mut Draft, channel: Channel)
    requires legal { channel_answer Whole channel ≡ done }
    requires room { Room (field_bytes (channel_of channel)) draft.old }
    ensures { Appended (field_bytes (channel_of channel)) draft.old draft.new }
{
    if channel.present {
        draft.push(channel.curve.count as u8);
        push_pairs(draft, &channel.curve);
    }
}

fn push_kind(draft: &mut Draft, k: CurveInterpolation)
    requires { Room (kind_bytes k) draft.old }
    ensures { Appended (kind_bytes k) draft.old draft.new }
{
    if names_kind(k) {
        draft.push(k.number());
    }
}

// A slope, low byte first.
fn push_slope(draft: &mut Draft, v: i16)
    requires { Room (slope_bytes v) draft.old }
    ensures { Appended (slope_bytes v) draft.old draft.new }
{
    let [low, high] = v.to_le_bytes();
    draft.push(low);
    draft.push(high);
}

// What the kind carries, as its number says. That its slopes are of 16 bits is for the theorems on
// runs. No line here is of one kind: a kind that carries what another does needs none.
fn push_carried(draft: &mut Draft, k: CurveInterpolation)
    requires { Room (carried_bytes k) draft.old }
    ensures { Appended (carried_bytes k) draft.old draft.new × LegalKind k }
{
    let number = k.number();
    let carried = carried_by(k);
    if carries_tension(number) {
        draft.push(carried.tension);
    } else if carries_slopes(number) {
        push_slope(draft, carried.start);
        push_slope(draft, carried.end);
    }
}

// Whether the kind is written: it is not the one that bit 7 stands for.
fn names_kind(k: CurveInterpolation) -> bool
    ensures { result ≡ names_kind k }
{
    k != unnamed_kind(true)
}

// The bit of this weight, where it is set.
// Stays: a number; the map is a byte of the record, and `map_byte` adds its bits up.
fn mark(present: bool, weight: u8) -> u8
    ensures { (result ≡ cond present weight 0) × (result ≤ weight) }
{
    if present { weight } else { 0 }
}

// The master as a field: an empty one is left out.
fn master_field(curve: Curve) -> Channel
    requires { curve_answer Whole curve ≡ done }
    ensures { (channel_of result ≡ master_field (list_of curve))
        × (channel_answer Whole result ≡ done) }
{
    Channel {
        present: curve.count != 0,
        curve,
    }
}

// The bit map. Bits 5 and 6 go with the kind, bit 7 is always set.
fn map_byte(master: &Channel, set: &Curves) -> u8
    ensures { result ≡ map_of (channel_of master.now) (channel_of set.now.red)
        (channel_of set.now.green) (channel_of set.now.blue) set.now.interpolation }
{
    let k = set.interpolation;
    mark(master.present, 1)
        + mark(set.red.present, 2)
        + mark(set.green.present, 4)
        + mark(set.blue.present, 8)
        + mark(names_kind(k), 16)
        + kind_bits(k.number()) * 32
        + 128
}

// The record of a set whose lists are legal.
fn record_of(set: &Curves) -> Draft
    requires { set_answer Whole set.now ≡ done }
    ensures { (result.items ≡ encode (view_of set.now)) × LegalKind set.now.interpolation }
{
    let master = master_field(set.master);
    let k = set.interpolation;
    let mut draft = ArrayVec::new();
    draft.push(map_byte(&master, set));
    push_field(&mut draft, master);
    push_field(&mut draft, set.red);
    push_field(&mut draft, set.green);
    push_field(&mut draft, set.blue);
    push_kind(&mut draft, k);
    push_carried(&mut draft, k);
    draft
}

// Writes the record of a set, and answers its length. A refusal leaves the buffer as it was, and no
// byte past the length is changed.
pub fn write_record(set: Curves, buffer: &mut [u8]) -> Result<usize, Refusal>
    ensures { WriteRecordCall set buffer.old result buffer.new }
{
    set.check(Heights::Whole)?;
    let draft = record_of(&set);
    let length = draft.len();
    room_for(length, buffer.len())?;
    buffer[..length].copy_from_slice(draft.as_slice());
    Ok(length)
}
