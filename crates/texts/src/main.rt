// Reads the texts of data/cases.bin and writes what xcpsettings prints of each. Both files, the texts and the lines in `stdout`, come from a
// second reading of document 01 and Ask 1 (oracle/), whose src/record.rs says how a text and its lines are written.
#![tactic(auto)]

use settingtext::report;
use std::fs::File;
use std::io::{Print, Read, Result};

// Writes the lines of a text.
fn answer(rt: &HostRuntime, t: &[u8], longest: u32) -> Result<()> {
    let mut out = [0u8; 149];
    let k = report(t, Some(longest), &mut out);
    rt.stdout().write_all(&out[0..k])
}

// Reads so many bytes, which are a text, and answers it.
fn turn(rt: &HostRuntime, file: &mut File, body: &mut [u8], longest: u32) -> Result<()> {
    file.read_exact(body)?;
    answer(rt, body, longest)
}

// The next text of the file, with X and its length before it, low byte first; tells whether there was one.
fn next(rt: &HostRuntime, file: &mut File, body: &mut [u8]) -> Result<bool> {
    let mut head = [0u8; 8];
    if file.read_exact(&mut head).is_err() {
        return Ok(false);
    }
    let [a, b, c, d, e, f, g, h] = head;
    let size = u32::from_le_bytes([e, f, g, h]) as usize;
    if size > body.len() {
        return Ok(false);
    }
    turn(
        rt,
        file,
        &mut body[0..size],
        u32::from_le_bytes([a, b, c, d]),
    )?;
    Ok(true)
}

// A loop has to end, and nothing says that a file does: its turns are counted.
fn run(rt: &HostRuntime, file: &mut File, body: &mut [u8]) -> Result<()> {
    for _ in 0..1000000 {
        if !next(rt, file, body)? {
            break;
        }
    }
    Ok(())
}

fn main(rt: HostRuntime) -> Result<()> {
    let mut body = [0u8; 16640];
    let mut file = File::open(&rt, "cases.bin")?;
    run(&rt, &mut file, &mut body)
}
