// What the program `tonetable` prints for the bytes of a record.
#![tactic(auto)]

ghost use Rattle.std.specs.Prelude.{◌≡◌, ◌<◌, ◌≤◌, length};
ghost use Rattle.text.specs.Text.{hexadecimal, behind, table_text, refusal_text, printed};
ghost use Rattle.text.specs.Text.{text_of, InputText};

use arrayvec::ArrayVec;
use records::read_set;
use tables::entries_of;

mod text_bytes;

pub use text_bytes::Text;

// How many bytes of an input are read: one more than the longest record has, so that a byte behind
// a record shows.
pub const INPUT: usize = 523;

impl Text {
    // The text of these characters.
    fn of(characters: &ArrayVec<u8, 768>) -> Text
        ensures { text_of result ≡ characters.now.items }
    {
        let mut bytes = [0; 768];
        let length = characters.len();
        bytes[..length].copy_from_slice(characters.as_slice());
        Text { bytes, length }
    }

    // The characters.
    pub fn as_slice(&self) -> &[u8]
        ensures value { result.now ≡ text_of self.now }
        ensures fits { length result.now ≤ 768 }
    {
        &self.bytes[..self.length]
    }
}

// The digit of a number below 16.
// Stays, and a decimal digit is made likewise: the edits `lower_case` and `tens_of_eleven` hold
// them.
fn digit(d: u8) -> u8
    requires { d < 16 }
    ensures { result ≡ hexadecimal d }
{
    if d < 10 { b'0' + d } else { b'A' - 10 + d }
}

// What is behind entry i.
fn after(i: usize) -> u8
    ensures { result ≡ behind i }
{
    if i % 16 == 15 { b'\n' } else { b' ' }
}

// A table, in lines of 16 entries.
fn table_text(table: &[u8; 256]) -> Text
    ensures { text_of result ≡ table_text table.now }
{
    let mut text = ArrayVec::new();
    for i in 0..256 {
        let v = table[i];
        text.push(digit(v / 16));
        text.push(digit(v % 16));
        text.push(after(i));
    }
    Text::of(&text)
}

// A refusal with its number, which is below 100.
fn refusal_text(number: u8) -> Text
    requires { number < 100 }
    ensures { text_of result ≡ refusal_text number }
{
    let mut text = ArrayVec::new();
    text.try_extend_from_slice(b"refused ").unwrap();
    if 10 <= number {
        text.push(b'0' + number / 10);
    }
    text.push(b'0' + number % 10);
    text.push(b'\n');
    Text::of(&text)
}

// The master's byte table of the set in the record, or the refusal.
pub fn text_of(bytes: &[u8]) -> Text
    ensures { text_of result ≡ printed bytes.now }
{
    match read_set(bytes) {
        Ok(set) => table_text(&entries_of(set.master, set.interpolation)),
        Err(refusal) => refusal_text(refusal.number()),
    }
}

// The same for an input that was read to the first n bytes of an array.
// Stays: the theorem `input_printed` of record_facts is of the array and n.
pub fn text_of_input(input: [u8; INPUT], n: usize) -> Text
    ensures { InputText input n result }
{
    text_of(&input[..n.min(INPUT)])
}
