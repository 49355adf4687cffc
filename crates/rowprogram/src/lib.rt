// The program's work: standard input is read as a U1 transfer, and its rows, or its refusal, are written to standard output at once.
#![tactic(auto)]

use rowtext::report;
use standard::{read_input, tell, write_output};

// Writes the text of an input.
fn answer(rt: &HostRuntime, t: &[u8]) {
    let mut rows = [0u32; 10240];
    let mut out = [0u8; 112640];
    let k = report(t, &mut rows, &mut out);
    write_output(
        rt,
        &out[0..k],
        b"xcprows: standard output cannot be written\n",
    );
}

// One byte more than the longest input is read, so that a longer one is seen.
pub fn run(rt: &HostRuntime) {
    let mut input = [0u8; 8193];
    match read_input(rt, &mut input) {
        Ok(n) => answer(rt, &input[0..n]),
        Err(_) => tell(rt, b"xcprows: standard input cannot be read\n"),
    }
}
