// Runs the cases of data/cases.bin and writes a line for each. Both files, the cases and the lines in `stdout`, come from a second
// reading of document 01 and of Ask 3 (oracle/), whose src/record.rs says how a case and a line are written.
#![tactic(auto)]

use lending::Lent;
use packet::{Counter, Refusal, Rows, Written};
use std::fmt;
use std::fs::File;
use std::io::{Cursor, Print, Read, Result, Write};

// The five numbers of a line.
#[derive(Clone, Copy)]
struct Line {
    number: u32,
    first: u32,
    second: u32,
    third: u32,
    digest: u64,
}

impl fmt::Display for Line {
    fn fmt<W: fmt::Write>(&self, f: &mut fmt::Formatter<W>) -> fmt::Result {
        write!(
            f,
            "{} {} {} {} {}",
            self.number, self.first, self.second, self.third, self.digest
        )
    }
}

// Where a run ends: in the body, and in what it is put into.
#[derive(Clone, Copy)]
struct End {
    body: usize,
    out: usize,
}

// So many items from a place on; none where they are not there.
fn part<T>(items: &[T], from: usize, n: usize) -> &[T] {
    items.get(from..from.saturating_add(n)).unwrap_or(&[])
}

fn byte(b: &[u8], at: usize) -> u8 {
    b.get(at).copied().unwrap_or(0)
}

// Four bytes, low byte first.
fn word(b: &[u8], at: usize) -> u32 {
    match part(b, at, 4) {
        [p, q, r, s] => u32::from_le_bytes([*p, *q, *r, *s]),
        _ => 0,
    }
}

// Copies as many bytes as there are and have room.
fn copy(from: &[u8], to: &mut [u8]) {
    for (place, b) in to.iter_mut().zip(from) {
        *place = *b;
    }
}

// Puts as many of an item as are asked for and have room.
fn repeat<T: Copy>(item: T, count: usize, to: &mut [T]) {
    for place in to.iter_mut().take(count) {
        *place = item;
    }
}

fn mix(h: u64, v: u64) -> u64 {
    let a = h % 4294967296;
    let b = v % 4294967296;
    (a * 16777619 + b) % 4294967296
}

fn digest<T: Copy + Into<u64>>(items: &[T]) -> u64 {
    let mut h: u64 = 2166136261;
    for item in items {
        h = mix(h, (*item).into());
    }
    h
}

// One run of bytes: its count, how it is given, and its bytes or its one byte.
fn byte_run(body: &[u8], at: usize, out: &mut [u8], to: usize) -> End {
    let n = word(body, at) as usize;
    let data = at.wrapping_add(5);
    let end = to.wrapping_add(n);
    if to > out.len() {
        return End {
            body: data,
            out: to,
        };
    }
    if byte(body, at.wrapping_add(4)) == 0 {
        copy(part(body, data, n), &mut out[to..]);
        return End {
            body: data.wrapping_add(n),
            out: end,
        };
    }
    repeat(byte(body, data), n, &mut out[to..]);
    End {
        body: data.wrapping_add(1),
        out: end,
    }
}

fn byte_runs(body: &[u8], runs: u32, out: &mut [u8]) -> End {
    let mut end = End { body: 0, out: 0 };
    for _ in 0..runs {
        end = byte_run(body, end.body, out, end.out);
    }
    end
}

// One run of lengths: its count and the length.
fn length_run(body: &[u8], at: usize, out: &mut [u32], to: usize) -> usize {
    let n = word(body, at) as usize;
    if to > out.len() {
        return to;
    }
    repeat(word(body, at.wrapping_add(4)), n, &mut out[to..]);
    to.wrapping_add(n)
}

fn length_runs(body: &[u8], from: usize, runs: u32, out: &mut [u32]) -> usize {
    let mut at = from;
    let mut to: usize = 0;
    for _ in 0..runs {
        to = length_run(body, at, out, to);
        at = at.wrapping_add(8);
    }
    to
}

fn accepted(first: u32, second: u32, third: u32, digest: u64) -> Line {
    Line {
        number: 0,
        first,
        second,
        third,
        digest,
    }
}

fn refused(refusal: Refusal, digest: u64) -> Line {
    Line {
        number: u32::from(refusal.reason),
        first: refusal.place,
        second: 0,
        third: 0,
        digest,
    }
}

// A case that does not fit here: no answer has this number.
fn unfit() -> Line {
    Line {
        number: 99,
        first: 0,
        second: 0,
        third: 0,
        digest: 0,
    }
}

fn reading(answer: std::result::Result<Rows, Refusal>, rows: &[u32]) -> Line {
    let digest = digest(rows);
    match answer {
        Ok(r) => accepted(
            r.count,
            (r.state.known != 0) as u32,
            r.state.expected,
            digest,
        ),
        Err(refusal) => refused(refusal, digest),
    }
}

// With the state lent the line has the state as it was left, refused or not.
fn telling(answer: Lent, rows: &[u32]) -> Line {
    let digest = digest(rows);
    let c = answer.state;
    let line = match answer.told {
        Ok(k) => accepted(k, 0, 0, digest),
        Err(refusal) => refused(refusal, digest),
    };
    Line {
        second: c.known,
        third: c.expected,
        ..line
    }
}

fn writing(answer: std::result::Result<Written, Refusal>, out: &[u8]) -> Line {
    let digest = digest(out);
    match answer {
        Ok(w) => accepted(w.bytes, w.next, 0, digest),
        Err(refusal) => refused(refusal, digest),
    }
}

fn usb_setting(head: &[u8]) -> usb::Setting {
    usb::Setting {
        header: word(head, 8),
        packing: word(head, 12),
        align: word(head, 16),
        datapacket: word(head, 20),
        longest: word(head, 24),
        direction: word(head, 28),
    }
}

fn flexray_setting(head: &[u8]) -> flexray::Setting {
    flexray::Setting {
        node: word(head, 8),
        direction: word(head, 12),
        ceiling: word(head, 16),
        header: word(head, 20),
        align: word(head, 24),
    }
}

fn udp_setting(head: &[u8]) -> udp::Setting {
    udp::Setting {
        longest: word(head, 8),
        direction: word(head, 12),
    }
}

fn state(head: &[u8]) -> Counter {
    Counter {
        known: word(head, 32),
        expected: word(head, 36),
    }
}

fn usb_write(head: &[u8], packets: &[u8], lengths: &[u32], out: &mut [u8]) -> Line {
    let answer = usb_writer::write(
        usb_setting(head),
        packets,
        lengths,
        word(head, 36),
        byte(head, 44),
        word(head, 32) != 0,
        out,
    );
    writing(answer, out)
}

fn flexray_write(head: &[u8], packets: &[u8], lengths: &[u32], out: &mut [u8]) -> Line {
    let answer = flexray_writer::write(
        flexray_setting(head),
        packets,
        lengths,
        word(head, 36),
        byte(head, 44),
        out,
    );
    writing(answer, out)
}

fn udp_write(head: &[u8], packets: &[u8], lengths: &[u32], out: &mut [u8]) -> Line {
    let answer = udp_writer::write(udp_setting(head), packets, lengths, word(head, 36), out);
    writing(answer, out)
}

fn part_case(head: &[u8], t: &[u8]) -> Line {
    let place = word(head, 32);
    let length = word(head, 36);
    let digest = digest(packet::part(t, place, length));
    match packet::part_check(t, place, length) {
        Ok(()) => accepted(length, 0, 0, digest),
        Err(refusal) => refused(refusal, digest),
    }
}

fn kind_case(head: &[u8], t: &[u8]) -> Line {
    let kind = packet::kind(word(head, 8), t).map_or(0, u32::from);
    accepted(kind, 0, 0, digest::<u8>(&[]))
}

// A function that reads t into the table.
fn read_case(function: u32, head: &[u8], t: &[u8], rows: &mut [u32]) -> Line {
    match function {
        0 => {
            let answer = usb_reader::read(usb_setting(head), t, state(head), rows);
            reading(answer, rows)
        }
        2 => {
            let answer = flexray_reader::read(flexray_setting(head), t, state(head), rows);
            reading(answer, rows)
        }
        4 => part_case(head, t),
        5 => kind_case(head, t),
        6 => {
            let answer = lending::usb_lent(usb_setting(head), t, state(head), rows);
            telling(answer, rows)
        }
        7 => {
            let answer = lending::flexray_lent(flexray_setting(head), t, state(head), rows);
            telling(answer, rows)
        }
        8 => {
            let answer = udp_reader::read(udp_setting(head), t, state(head), rows);
            reading(answer, rows)
        }
        10 => {
            let answer = lending::udp_lent(udp_setting(head), t, state(head), rows);
            telling(answer, rows)
        }
        _ => unfit(),
    }
}

// What a case is put into: inputs and outputs, packets, and numbers.
#[derive(Drop)]
struct Tables {
    buffer: [u8; 262400],
    packets: [u8; 65664],
    numbers: [u32; 20480],
}

// A function that reads: its input is put into the wide buffer, and the numbers are its table.
fn run_reader(function: u32, head: &[u8], body: &[u8], tables: &mut Tables) -> Line {
    let table = word(head, 40) as usize;
    let n = byte_runs(body, word(head, 48), &mut tables.buffer).out;
    if table > tables.numbers.len() {
        return unfit();
    }
    repeat(0xA5C31E7F, table, &mut tables.numbers);
    let t = part(&tables.buffer, 0, n);
    read_case(function, head, t, &mut tables.numbers[0..table])
}

// A function that writes: the numbers are its lengths, and the wide buffer is its output.
fn run_writer(function: u32, head: &[u8], body: &[u8], tables: &mut Tables) -> Line {
    let room = word(head, 40) as usize;
    let end = byte_runs(body, word(head, 48), &mut tables.packets);
    let k = length_runs(body, end.body, word(head, 52), &mut tables.numbers);
    if room > tables.buffer.len() {
        return unfit();
    }
    repeat(0xB7, room, &mut tables.buffer);
    let bytes = part(&tables.packets, 0, end.out);
    let lengths = part(&tables.numbers, 0, k);
    let out = &mut tables.buffer[0..room];
    match function {
        1 => usb_write(head, bytes, lengths, out),
        3 => flexray_write(head, bytes, lengths, out),
        _ => udp_write(head, bytes, lengths, out),
    }
}

// The case's line, by its function.
fn run(head: &[u8], body: &[u8], tables: &mut Tables) -> Line {
    match word(head, 0) {
        function @ (1 | 3 | 9) => run_writer(function, head, body, tables),
        function => run_reader(function, head, body, tables),
    }
}

// Writes what was gathered, and begins the text anew.
fn flush(rt: &HostRuntime, text: &mut Cursor<[u8; 8192]>) -> Result<()> {
    rt.stdout()
        .write_all(part(text.get_ref(), 0, text.position() as usize))?;
    text.set_position(0);
    Ok(())
}

// Reads a case, runs it and puts its line into the text, which is written when it is nearly full, and behind the last case; tells whether there was one.
fn turn(
    rt: &HostRuntime,
    file: &mut File,
    text: &mut Cursor<[u8; 8192]>,
    body: &mut [u8; 2048],
    tables: &mut Tables,
) -> Result<bool> {
    let mut head = [0u8; 56];
    let ends = file.read_exact(&mut head).is_err();
    let size = word(&head, 4) as usize;
    if ends || size > body.len() {
        flush(rt, text)?;
        return Ok(false);
    }
    file.read_exact(&mut body[0..size])?;
    writeln!(text, "{}", run(&head, &body[0..size], tables))?;
    if text.position() >= 8000 {
        flush(rt, text)?;
    }
    Ok(true)
}

fn main(rt: HostRuntime) -> Result<()> {
    let mut text = Cursor::new([0u8; 8192]);
    let mut body = [0u8; 2048];
    let mut tables = Tables {
        buffer: [0; 262400],
        packets: [0; 65664],
        numbers: [0; 20480],
    };
    let mut file = File::open(&rt, "cases.bin")?;
    // A loop has to end, and nothing says that a file does: its turns are counted.
    for _ in 0..1000000 {
        if !turn(&rt, &mut file, &mut text, &mut body, &mut tables)? {
            break;
        }
    }
    Ok(())
}
