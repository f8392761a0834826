// Holds the reader and the writer of records to a second reading of documents 01 and 02, the model
// in tools/record_model.py.
// The model wrote the files stdin, a list of good and damaged records, and stdout, what this
// program must print. It says how both read.
#![tactic(auto)]

use answers::number_of;
use arrayvec::ArrayVec;
use points::Curve;
use questions::{Fnv32, Hexadecimal, front, read_array, read_array_vec};
use sets::{Channel, Curves};
use std::fmt::Write;
use std::hash::Hasher;
use std::io::Read;
use std::{fmt, io};
use tables::{CurveInterpolation, carried_by, carries_slopes, carries_tension};

// A longer record ends the list.
const LONGEST: usize = 1024;

// The points of a list, an x of two digits and a height of four for each.
#[derive(Clone, Copy)]
struct Points(Curve);

impl fmt::Display for Points {
    fn fmt<W: fmt::Write>(&self, f: &mut fmt::Formatter<W>) -> fmt::Result {
        let curve = &self.0;
        for (x, y) in curve.xs.iter().zip(curve.ys.iter()).take(curve.count) {
            write!(f, "{x:02x}{y:04x}")?;
        }
        Ok(())
    }
}

// The letter of a list, and its points or a dash.
#[derive(Clone, Copy)]
struct List(char, Channel);

impl fmt::Display for List {
    fn fmt<W: fmt::Write>(&self, f: &mut fmt::Formatter<W>) -> fmt::Result {
        let List(letter, list) = *self;
        if list.present {
            write!(f, " {letter}{}", Points(list.curve))
        } else {
            write!(f, " {letter}-")
        }
    }
}

// The number of a kind, and what it carries.
#[derive(Clone, Copy)]
struct Kind(CurveInterpolation);

impl fmt::Display for Kind {
    fn fmt<W: fmt::Write>(&self, f: &mut fmt::Formatter<W>) -> fmt::Result {
        let number = self.0.number();
        let carried = carried_by(self.0);
        write!(f, " K{number}")?;
        if carries_tension(number) {
            return write!(f, " {}", carried.tension);
        }
        if carries_slopes(number) {
            return write!(f, " {} {}", carried.start, carried.end);
        }
        Ok(())
    }
}

#[derive(Clone, Copy)]
struct Set(Curves);

impl fmt::Display for Set {
    fn fmt<W: fmt::Write>(&self, f: &mut fmt::Formatter<W>) -> fmt::Result {
        let set = self.0;
        let master = List('M', Channel::of(set.master));
        let red = List('R', set.red);
        let green = List('G', set.green);
        let blue = List('B', set.blue);
        let kind = Kind(set.interpolation);
        write!(f, "{master}{red}{green}{blue}{kind}")
    }
}

// Whether a record reads as this set.
fn reads_as(record: &[u8], set: Curves) -> bool {
    match records::read_set(record) {
        Ok(read) => sameness::same(read, set),
        Err(_) => false,
    }
}

// What the writer makes of a set, with a mark if that does not read as the same set.
#[derive(Clone, Copy)]
struct Written(Curves);

impl fmt::Display for Written {
    fn fmt<W: fmt::Write>(&self, f: &mut fmt::Formatter<W>) -> fmt::Result {
        let mut buffer = [0; 600];
        let length = writing::write_record(self.0, &mut buffer).unwrap_or(0);
        let record = front(&buffer, length);
        let mark = if reads_as(record, self.0) {
            ""
        } else {
            " differs"
        };
        write!(f, " = {}{mark}", Hexadecimal(record))
    }
}

// The set with the height of the master's first point one 256th above its level; an empty master
// stays.
fn with_fine_height(set: Curves) -> Curves {
    let mut master = set.master;
    if master.count == 0 {
        return set;
    }
    master.ys[0] = master.ys[0] / 256 * 256 + 1;
    set.with_master(master)
}

// What the writer answers for a set with a fine height.
fn fine_answer(set: Curves) -> u8 {
    match writing::write_record(with_fine_height(set), &mut [0; 600]) {
        Ok(_) => 0,
        Err(refusal) => refusal.number(),
    }
}

// The text of a record: the answer, the set, and unless it is refused what the writer makes of it
// and answers for it with a fine height.
#[derive(Clone, Copy)]
struct Text<'a>(&'a [u8]);

impl<'a> fmt::Display for Text<'a> {
    fn fmt<W: fmt::Write>(&self, f: &mut fmt::Formatter<W>) -> fmt::Result {
        let read = records::read_record(self.0);
        let answer = number_of(read.answer);
        let set = Set(read.set);
        if read.answer.is_ok() {
            let written = Written(read.set);
            let fine = fine_answer(read.set);
            write!(f, "{answer}{set}{written} ^ {fine}")
        } else {
            write!(f, "{answer}{set}")
        }
    }
}

// The next record in the list, if there is one.
fn next<R: Read>(input: &mut R) -> io::Result<Option<ArrayVec<u8, LONGEST>>> {
    let Some(length) = read_array(input)? else {
        return Ok(None);
    };
    let length = usize::from(u16::from_le_bytes(length));
    if length > LONGEST {
        return Ok(None);
    }
    let record = read_array_vec(input, length)?;
    Ok(Some(record).filter(|record| record.len() == length))
}

// Prints a line for each record of the stored list, which has far fewer than this bound.
fn print_list<R: Read>(rt: &impl Print, input: &mut R) -> io::Result<()> {
    for i in 0..100000 {
        let Some(record) = next(input)? else {
            return Ok(());
        };
        println!(rt; "{i}: {}", Text(record.as_slice()))?;
    }
    Ok(())
}

// How often each answer from 0 to 7 comes among some records, and the digest of their texts.
#[derive(Clone, Copy)]
struct Tally {
    answers: [u64; 8],
    digest: Fnv32,
}

impl fmt::Display for Tally {
    fn fmt<W: fmt::Write>(&self, f: &mut fmt::Formatter<W>) -> fmt::Result {
        for count in self.answers.iter() {
            write!(f, "{count} ")?;
        }
        write!(f, "{:08x}", self.digest.finish())
    }
}

// The 256 records of two bytes that begin with this map.
fn tallied(map: u8) -> Result<Tally, fmt::Error> {
    let mut answers = [0u64; 8];
    let mut digest = Fnv32::new();
    for second in 0..=255 {
        let record = [map, second];
        let answer = records::read_record(&record).answer;
        if let Some(count) = answers.get_mut(usize::from(number_of(answer))) {
            *count = count.wrapping_add(1);
        }
        writeln!(digest, "{}", Text(&record))?;
    }
    Ok(Tally { answers, digest })
}

// All records of up to two bytes: a line for the empty one, and one for those that begin with each
// map.
fn print_walk(rt: &impl Print) -> io::Result<()> {
    println!(rt; "no bytes: {}", Text(&[]))?;
    for map in 0..=255 {
        let one = [map];
        let text = Text(&one);
        let tally = tallied(map)?;
        println!(rt; "map {map:02x}: {text}; {tally}")?;
    }
    Ok(())
}

fn main(rt: HostRuntime) -> io::Result<()> {
    print_list(&rt, &mut rt.stdin())?;
    print_walk(&rt)
}
