// The program's work: the longest packet is taken from the argument and the block from standard input, and both settings, or the refusal, are written to
// standard output at once.
#![tactic(auto)]

use settingtext::{argument, report};
use standard::{read_input, tell, write_output};
use std::env::{Env, FillError};

// Whether the program was called with so many words before a further one, its own name among them. A word that has no room is there.
fn goes_on(rt: &HostRuntime, words: usize) -> bool {
    !matches!(rt.arg(words, &mut []), Err(FillError::NotPresent))
}

// How many words the program was called with, its own name among them.
fn word_count(rt: &HostRuntime) -> usize {
    for words in 0..usize::MAX {
        if !goes_on(rt, words) {
            return words;
        }
    }
    usize::MAX
}

// The longest packet. Linux starts no program with a word of 131,072 bytes or more. A word that is missing comes as one of no byte.
fn longest(rt: &HostRuntime) -> Option<u32> {
    let mut first = [0u8; 131072];
    let n = rt.arg(1, &mut first).unwrap_or(0);
    argument(word_count(rt), &first[0..n])
}

// Writes the text of an input.
fn answer(rt: &HostRuntime, t: &[u8], x: Option<u32>) {
    let mut out = [0u8; 149];
    let k = report(t, x, &mut out);
    write_output(
        rt,
        &out[0..k],
        b"xcpsettings: standard output cannot be written\n",
    );
}

// One byte more than the longest text is read, so that a longer one is seen.
fn answer_input(rt: &HostRuntime, x: Option<u32>) {
    let mut input = [0u8; 16385];
    match read_input(rt, &mut input) {
        Ok(n) => answer(rt, &input[0..n], x),
        Err(_) => tell(rt, b"xcpsettings: standard input cannot be read\n"),
    }
}

// Without the longest packet the answer is known, and no input is read.
pub fn run(rt: &HostRuntime) {
    let x = longest(rt);
    match x {
        Some(_) => answer_input(rt, x),
        None => answer(rt, b"", x),
    }
}
