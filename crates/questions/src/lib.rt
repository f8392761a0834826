// What the programs that replay stored questions share: how a question is read, how bytes are
// printed, and the digest that stands for a long answer. Nothing here needs the heap but
// `read_up_to`, whose caller names the memory.
#![tactic(auto)]

ghost use Rattle.std.specs.Prelude.{◌≡◌, ◌≢◌, ◌+◌, ◌*◌, ◌<◌, ◌≤◌};
ghost use Rattle.std.specs.Prelude.{IfOk, IfErr, OnErr, IfSome, Some, length, min, take};
ghost use Rattle.std.specs.Io.{ReadsAtMost};
ghost use Rattle.std.specs.Io.KnownBytes.{Consumes, IsAtEnd, Keeps};
ghost use Rattle.std.specs.IoError.{error_kind};
ghost use Rattle.std.specs.List.{fold};
ghost use Rattle.questions.specs.Questions.{digit_value, byte_of, bytes_of, in_digits};
ghost use Rattle.questions.specs.Questions.{joined, whole};
ghost use Rattle.questions.specs.Reading.{Takes};

use arrayvec::ArrayVec;
use std::alloc::Allocator;
use std::hash::Hasher;
use std::io::{ErrorKind, Read};
use std::{fmt, io};

// One read, which is tried again where a signal interrupts it.
fn read_retried<R: Read>(input: &mut R, buffer: &mut [u8]) -> io::Result<usize>
    ensures bound { ReadsAtMost result buffer.new }
    ensures ok { IfOk result (λ n.
        Consumes (R.remaining input.old) (R.remaining input.new) (take n buffer.new)) }
    ensures end { IfOk result (λ n.
        n ≡ 0 → 0 < length buffer.old → IsAtEnd (R.remaining input.new)) }
    ensures err { OnErr result (Keeps (R.remaining input.old) (R.remaining input.new)) }
    ensures retried { IfErr result (λ e. error_kind e ≢ ErrorKind.Interrupted) }
{
    for _ in 0..u64::MAX {
        match input.read(buffer) {
            Ok(n) => return Ok(n),
            Err(error) => {
                if error.kind() != ErrorKind::Interrupted {
                    return Err(error);
                }
            }
        }
    }
    Err(io::Error::from(ErrorKind::TimedOut))
}

// Fills a buffer from its front, as far as the input goes, and answers how many bytes there were.
// Stays: `tonetable` has this loop too, with an edit of it, and stands on no crate of the replays;
// `read_exact` says nothing of what is left where it fails, and `read_to_end` needs the heap.
fn fill<R: Read>(input: &mut R, buffer: &mut [u8]) -> io::Result<usize>
    ensures bound { IfOk result (λ n. n ≤ length buffer.new) }
    ensures front { IfOk result (λ n. IfSome (R.remaining input.old) (λ s.
        take n buffer.new ≡ take (length buffer.new) s)) }
    ensures left { Takes (length buffer.new) (R.remaining input.old) (R.remaining input.new) result }
{
    let mut filled: usize = 0;
    while filled < buffer.len() {
        let more = read_retried(input, &mut buffer[filled..])?;
        if more == 0 {
            return Ok(filled);
        }
        filled += more;
    }
    Ok(filled)
}

// Reads n bytes, or as many as there are or as there is room for.
pub fn read_array_vec<const ROOM: usize, R: Read>(
    input: &mut R,
    n: usize,
) -> io::Result<ArrayVec<u8, ROOM>>
    ensures front { IfOk result (λ v. IfSome (R.remaining input.old) (λ s.
        v.items ≡ take (min n ROOM) s)) }
    ensures left { Takes (min n ROOM) (R.remaining input.old) (R.remaining input.new) result }
{
    let room = n.min(ROOM);
    let mut bytes = [0; ROOM];
    let filled = fill(input, &mut bytes[..room])?;
    let mut front = ArrayVec::from(bytes);
    front.truncate(filled);
    Ok(front)
}

// Reads n bytes, or as many as there are, into memory of the caller's.
pub fn read_up_to<A: Allocator, R: Read>(alloc: A, input: &mut R, n: u64) -> io::Result<Vec<u8, A>>
    ensures front { IfOk result (λ v. IfSome (R.remaining input.old) (λ s. v.items ≡ take n s)) }
    ensures left { Takes n (R.remaining input.old) (R.remaining input.new) result }
{
    let mut bytes = Vec::new(alloc);
    for at in (0..n).step_by(1024) {
        let part = (n - at).min(1024) as usize;
        let piece: ArrayVec<u8, 1024> = read_array_vec(input, part)?;
        bytes.extend_from_slice(piece.as_slice())?;
        if piece.len() < part {
            return Ok(bytes);
        }
    }
    Ok(bytes)
}

// Reads past n bytes, or as many as there are, of 4,096 at most.
pub fn skip<R: Read>(input: &mut R, n: usize) -> io::Result<()>
    ensures { Takes (min n 4096) (R.remaining input.old) (R.remaining input.new) result }
{
    let past = n.min(4096);
    let mut bytes = [0; 4096];
    fill(input, &mut bytes[..past])?;
    Ok(())
}

// Reads N bytes, if there are so many.
pub fn read_array<const N: usize, R: Read>(input: &mut R) -> io::Result<Option<[u8; N]>>
    ensures front { IfOk result (λ r. IfSome (R.remaining input.old) (λ s. r ≡ whole N s)) }
    ensures left { Takes N (R.remaining input.old) (R.remaining input.new) result }
{
    let mut bytes = [0; N];
    let filled = fill(input, &mut bytes)?;
    Ok((filled == N).then_some(bytes))
}

// The first n of some bytes, or all.
pub fn front(bytes: &[u8], n: usize) -> &[u8]
    ensures { result.now ≡ take n bytes.now }
{
    bytes.get(..n).unwrap_or(bytes)
}

// What a hexadecimal digit in lower case means; any other byte means 0.
// Stays: `char::to_digit` and the crate `hex` read upper case too.
fn digit(c: u8) -> u8
    ensures { (result ≡ digit_value c) × (result < 16) }
{
    match c {
        b'0'..=b'9' => c - b'0',
        b'a'..=b'f' => c - b'a' + 10,
        _ => 0,
    }
}

// A question: a line whose bytes are two hexadecimal digits each.
#[derive(Clone, Copy)]
pub struct Question<const LENGTH: usize> {
    pub line: [u8; LENGTH],
}

impl<const LENGTH: usize> Question<LENGTH> {
    ghost use Rattle.questions.specs.Question.{line_of};
    ghost use Rattle.std.specs.Option.{option_map};

    // The next question, if there is one.
    pub fn read<R: Read>(input: &mut R) -> io::Result<Option<Question<LENGTH>>>
        ensures front { IfOk result (λ r. IfSome (R.remaining input.old) (λ s.
            option_map line_of r ≡ whole LENGTH s)) }
        ensures left { Takes LENGTH (R.remaining input.old) (R.remaining input.new) result }
    {
        match read_array(input)? {
            Some(line) => Ok(Some(Question { line })),
            None => Ok(None),
        }
    }

    // Byte i of the question.
    pub fn byte(&self, i: usize) -> u8
        requires { 2 * i + 1 < LENGTH }
        ensures { result ≡ byte_of self.now.line i }
    {
        16 * digit(self.line[2 * i]) + digit(self.line[2 * i + 1])
    }

    // The N bytes from a place on.
    pub fn bytes<const N: usize>(&self, from: usize) -> [u8; N]
        requires { 2 * (from + N) ≤ LENGTH }
        ensures { result ≡ bytes_of self.now.line from N }
    {
        // Stays: where N is a parameter, the contract of `array::from_fn` doesn't say what ran.
        let mut bytes = [0; N];
        for i in 0..N {
            bytes[i] = self.byte(from + i);
        }
        bytes
    }
}

// Bytes that print as two hexadecimal digits each, in lower case.
#[derive(Clone, Copy)]
pub struct Hexadecimal<'a>(pub &'a [u8]);

impl<'a> fmt::Display for Hexadecimal<'a> {
    ghost output = { λ h. Some (in_digits h.0.now) };

    fn fmt<W: fmt::Write>(&self, f: &mut fmt::Formatter<W>) -> fmt::Result {
        for &byte in self.0 {
            write!(f, "{byte:02x}")?;
        }
        Ok(())
    }
}

// A digest by FNV-1a (Fowler, Noll and Vo), of as many bits as the mask has.
#[derive(Clone, Copy)]
pub struct Fnv<const START: u64, const PRIME: u64, const MASK: u64> {
    pub state: u64,
}

pub type Fnv32 = Fnv<0x811c_9dc5, 0x0100_0193, 0xffff_ffff>;

pub type Fnv64 = Fnv<0xcbf2_9ce4_8422_2325, 0x0100_0000_01b3, 0xffff_ffff_ffff_ffff>;

impl<const START: u64, const PRIME: u64, const MASK: u64> Fnv<START, PRIME, MASK> {
    // The digest of no bytes.
    pub fn new() -> Self
        ensures { result.state ≡ START }
    {
        Fnv { state: START }
    }
}

impl<const START: u64, const PRIME: u64, const MASK: u64> Hasher for Fnv<START, PRIME, MASK> {
    ghost write = { λ d bytes. record { state = fold (joined PRIME MASK) d.state bytes } };

    ghost finish = { λ d. d.state };

    fn finish(&self) -> u64 {
        self.state
    }

    fn write(&mut self, bytes: &[u8]) {
        let step = |state: u64, byte: &u8| -> u64
            ensures { result ≡ joined PRIME MASK state byte.now }
        { (state ^ u64::from(*byte)).wrapping_mul(PRIME) & MASK };
        *self = Fnv {
            state: bytes.iter().fold(self.state, step),
        };
    }
}

impl<const START: u64, const PRIME: u64, const MASK: u64> fmt::Write for Fnv<START, PRIME, MASK> {
    ghost write_str_gives = { λ d text e. e.state ≡ fold (joined PRIME MASK) d.state text };

    fn write_str(&mut self, s: &str) -> fmt::Result {
        Hasher::write(self, s.as_bytes());
        Ok(())
    }
}

#[cfg(test)]
mod tests {
    use super::*;
    use arrayvec::ArrayString;
    use std::fmt::Write;

    // A body that gives up on every input would meet each of these contracts: here each reads.
    #[test]
    fn reads_what_there_is(rt: HostRuntime) -> io::Result<()> {
        let mut input: &[u8] = b"07ff\nrest";
        let question = Question::<5>::read(&mut input)?;
        let Some(question) = question else {
            panic!(rt; "no question");
        };
        assert_eq!(rt; question.byte(0), 7);
        assert_eq!(rt; question.byte(1), 255);
        let two: Option<[u8; 2]> = read_array(&mut input)?;
        assert!(rt; two == Some([b'r', b'e']));
        let more: ArrayVec<u8, 9> = read_array_vec(&mut input, 9)?;
        assert!(rt; more.as_slice() == b"st".as_slice());
        let none: Option<[u8; 1]> = read_array(&mut input)?;
        assert!(rt; none.is_none());
        Ok(())
    }

    // Memory can run out in `read_up_to`, which no contract rules out: here it does not, for fewer
    // bytes than a piece has, for none, for two whole pieces, and for more than there are.
    #[test]
    fn reads_into_memory(rt: HostRuntime) -> io::Result<()> {
        let mut bytes = [0; 10000];
        for i in 0..10000 {
            bytes[i] = (i % 251) as u8;
        }
        let mut input: &[u8] = &bytes;
        let few = read_up_to(rt.alloc(), &mut input, 9)?;
        assert!(rt; few.as_slice() == &bytes[..9]);
        let none = read_up_to(rt.alloc(), &mut input, 0)?;
        assert!(rt; none.is_empty());
        let pieces = read_up_to(rt.alloc(), &mut input, 2048)?;
        assert!(rt; pieces.as_slice() == &bytes[9..2057]);
        let rest = read_up_to(rt.alloc(), &mut input, u64::MAX)?;
        assert!(rt; rest.as_slice() == &bytes[2057..]);
        let end = read_up_to(rt.alloc(), &mut input, 1)?;
        assert!(rt; end.is_empty());
        Ok(())
    }

    // The same of what prints.
    #[test]
    fn prints_two_digits_a_byte(rt: HostRuntime) -> io::Result<()> {
        let mut text = ArrayString::<6>::new();
        write!(text, "{}", Hexadecimal(&[7, 0, 175]))?;
        assert!(rt; text.as_str() == "0700af");
        Ok(())
    }
}
