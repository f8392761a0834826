// Holds the texts that `tonetable` prints to a model written from document 01, tools/text_model.py.
// The model wrote the files stdin, a list of inputs, each with its length in two bytes in front,
// low byte first, and stdout, what this program must print: each input's number, length and text.
#![tactic(auto)]

use questions::{read_array, read_array_vec, skip};
use std::io;
use std::io::Read;
use text::INPUT;

// Prints the text of an input's first bytes.
fn print_text(rt: &impl Print, bytes: &[u8]) -> io::Result<()> {
    let n = bytes.len().min(INPUT);
    let mut input = [0; INPUT];
    input[..n].copy_from_slice(&bytes[..n]);
    let text = text::text_of_input(input, n);
    rt.write_all(text.as_slice())
}

// The next input of the list, if there is one. Of the bytes behind those that are read it takes as
// many as `skip` does.
fn next<R: Read>(rt: &impl Print, list: &mut R, i: usize) -> io::Result<bool> {
    let Some(length) = read_array(list)? else {
        return Ok(false);
    };
    let n = u16::from_le_bytes(length);
    let bytes = read_array_vec::<INPUT, R>(list, usize::from(n))?;
    if bytes.len() < usize::from(n) {
        skip(list, usize::from(n) - bytes.len())?;
    }
    println!(rt; "{i}, bytes: {n}")?;
    print_text(rt, bytes.as_slice())?;
    Ok(true)
}

// The stored list, which has far fewer inputs than this bound.
fn main(rt: HostRuntime) -> io::Result<()> {
    let mut list = rt.stdin();
    for i in 0..100000 {
        if !next(&rt, &mut list, i)? {
            return Ok(());
        }
    }
    Ok(())
}
