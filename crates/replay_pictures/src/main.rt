// Replays stored pictures of the Rust original: the questions are in the file stdin, and stdout
// holds what the original answered.
// Both were written by the program `store` of bindings/rust from the original alone (cargo run
// --release --bin store), which says how they read.
#![tactic(auto)]

ghost use Rattle.std.specs.Prelude.{◌<◌};

use formats::format_of;
use pictures::Job;
use questions::{Hexadecimal, front};
use sets::Curves;
use std::io;

// Two digits for each of 363 bytes, and the end of the line.
type Question = questions::Question<727>;

// A byte of a question that says how many bytes of a record or a plane count.
fn length_at(question: &Question, i: usize) -> usize
    requires { i < 363 }
{
    usize::from(question.byte(i))
}

// The set of a question's record.
fn set_of(question: &Question) -> Curves {
    let record: [u8; 64] = question.bytes(11);
    records::read_record(front(&record, length_at(question, 6))).set
}

// The table of a question's master.
fn table_of(question: &Question) -> [u8; 256] {
    let set = set_of(question);
    tables::build_lut(set.master, set.interpolation).table
}

// The call by one table, in place. A plane that is to have more bytes than there are stays, and so
// does one that is refused.
fn tone_plane(rt: &impl Print, question: &Question) -> io::Result<()> {
    let mut plane: [u8; 240] = question.bytes(75);
    let n = length_at(question, 7);
    if let Some(plane) = plane.get_mut(..n) {
        let _ = pictures::apply_tone_lut(
            plane,
            length_at(question, 4),
            table_of(question),
            format_of(question.byte(1)),
            u32::from(question.byte(2)),
            u32::from(question.byte(3)),
        );
    }
    println!(rt; "{}", Hexadecimal(front(&plane, n)))
}

// The set call.
fn tone_picture(rt: &impl Print, question: &Question) -> io::Result<()> {
    let plane: [u8; 240] = question.bytes(75);
    let cb: [u8; 24] = question.bytes(315);
    let cr: [u8; 24] = question.bytes(339);
    let mut out = [0; 240];
    let mut out_cb = [0; 24];
    let mut out_cr = [0; 24];
    let format = format_of(question.byte(1));
    let job = Job {
        set: set_of(question),
        format,
        width: u32::from(question.byte(2)),
        height: u32::from(question.byte(3)),
        planes: length_at(question, 5),
    };
    let toned = pictures::apply_pixels(
        job,
        front(&plane, length_at(question, 7)),
        length_at(question, 4),
        front(&cb, length_at(question, 8)),
        0,
        front(&cr, length_at(question, 9)),
        0,
        &mut out,
        &mut out_cb,
        &mut out_cr,
    );
    if toned.is_err() {
        return println!(rt; "refused");
    }
    let out = Hexadecimal(front(&out, length_at(question, 10)));
    if format.planes_read() != 3 {
        return println!(rt; "{out}");
    }
    let cb = Hexadecimal(front(&out_cb, length_at(question, 8)));
    let cr = Hexadecimal(front(&out_cr, length_at(question, 9)));
    println!(rt; "{out} {cb} {cr}")
}

// The stored list, which has fewer questions than this bound. Stays in both replays of questions: a
// closure for what is done with one is no plainer than the loop.
fn main(rt: HostRuntime) -> io::Result<()> {
    let mut input = rt.stdin();
    for _ in 0..1000 {
        let Some(question) = Question::read(&mut input)? else {
            return Ok(());
        };
        if question.byte(0) == 0 {
            tone_plane(&rt, &question)?;
        } else {
            tone_picture(&rt, &question)?;
        }
    }
    Ok(())
}
