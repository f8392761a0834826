// The stored record, edition 1: the reader. Here are the fields in their order; `point_lists` reads
// a list, `kinds` the kind, and `map` has the bits of the first byte.
// A field is read from the front of what is left of the record, and hands on what follows it.
#![tactic(auto)]

ghost use Rattle.records.specs.Map.{bit, colour_bit};
ghost use Rattle.records.specs.Views.{ColourRead, ReadSetCall, ReadRecordCall};

use answers::{Answer, Refusal};
use kinds::{read_kind, unnamed_kind};
use map::{colour_bit, has_bit};
use point_lists::read_field;
use sets::{Channel, Colour, Curves};

pub mod kinds;
mod map;
pub mod point_lists;

// The set that a record holds, beside the answer.
// Stays: beside a refusal there is a set, "the empty set of the default kind, without colours",
// which `ReadRecordCall` and the edit `colour_beside_a_refusal` hold; `read_set` has a Result.
#[derive(Clone, Copy)]
pub struct RecordRead {
    pub answer: Answer,
    pub set: Curves,
}

// A colour: its mark, and its list where it is present.
fn read_colour(rest: &[u8], map: u8, colour: Colour) -> Result<(Channel, &[u8]), Refusal>
    ensures { ColourRead (bit (colour_bit colour) map) rest.now result }
{
    let present = has_bit(map, colour_bit(colour));
    let (curve, rest) = read_field(rest, present, 0)?;
    Ok((Channel { present, curve }, rest))
}

// The set that a record holds: its fields from bit 0 of the map on, and nothing behind them.
#[tactic(auto, unfolding(crate::specs::Format::read_record, crate::specs::Format::read_fields))]
pub fn read_set(stored: &[u8]) -> Result<Curves, Refusal>
    ensures { ReadSetCall stored.now result }
{
    let Some((map, rest)) = stored.split_first() else {
        return Err(Refusal::RecordTruncated);
    };
    let map = *map;
    let (master, rest) = read_field(rest, has_bit(map, 1), 1)?;
    let (red, rest) = read_colour(rest, map, Colour::Red)?;
    let (green, rest) = read_colour(rest, map, Colour::Green)?;
    let (blue, rest) = read_colour(rest, map, Colour::Blue)?;
    let (interpolation, rest) = read_kind(rest, map, unnamed_kind(has_bit(map, 128)))?;
    if !rest.is_empty() {
        return Err(Refusal::TrailingBytes);
    }
    Ok(Curves {
        master,
        red,
        green,
        blue,
        interpolation,
    })
}

// Reads a stored record.
pub fn read_record(s: &[u8]) -> RecordRead
    ensures { ReadRecordCall s.now result }
{
    match read_set(s) {
        Ok(set) => RecordRead {
            answer: Ok(()),
            set,
        },
        Err(refusal) => RecordRead {
            answer: Err(refusal),
            set: Curves::empty(),
        },
    }
}
