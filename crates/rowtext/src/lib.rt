// The text of what is read of a transfer: a line for each row, or the line of a refusal.
#![tactic(auto)]

ghost use Rattle.std.specs.Prelude.{◌≡◌, ◌*◌, ◌≤◌, length};
ghost use Rattle.packet.specs.Counter.{fresh};
ghost use Rattle.packet.specs.Said.{read_said};
ghost use Rattle.usb.specs.Reading.{read_of};
ghost use Rattle.spelling.specs.Page.{Adds, Room};
ghost use Rattle.spelling.specs.Put.{Reports};
ghost use Rattle.rowtext.specs.Put.{Roomy, Tellable, Prepared};
ghost use Rattle.rowtext.specs.Text.{line_of, lines, told, text_of, program_text, u1 as u1_of};

use packet::{Counter, Reason, Refusal, Rows};
use spelling::Page;
use usb::Setting;
use usb_reader::read;

// Puts the line of a row. The last number has the line's end behind it, so a loop over the row would be no plainer.
fn put_row(page: &mut Page, row: &[u32])
    requires room { Room page.old 55 }
    requires five { 5 ≤ length row.now }
    ensures { Adds page.old (line_of row.now) 55 page.new }
{
    page.word(row[0], b' ');
    page.word(row[1], b' ');
    page.word(row[2], b' ');
    page.word(row[3], b' ');
    page.word(row[4], b'\n');
}

// Puts the lines of the first k rows.
fn put_rows(page: &mut Page, rows: &[u32], k: usize)
    requires room { Room page.old (55 * k) }
    requires there { 5 * k ≤ length rows.now }
    ensures { Adds page.old (lines k rows.now) (55 * k) page.new }
{
    for row in rows[0..5 * k].chunks_exact(5) {
        put_row(page, row);
    }
}

// Puts the text of an answer at the front.
fn put_answer(out: &mut [u8], rows: &[u32], answer: Result<Rows, Refusal>) -> usize
    requires { Tellable out.old rows.now (read_said answer) }
    ensures { Reports out.old (told (read_said answer) rows.now) out.new result }
{
    let mut page = Page::new(out);
    match answer {
        Ok(read) => put_rows(&mut page, rows, read.count as usize),
        Err(refusal) => page.refusal(u32::from(refusal.reason), refusal.place),
    }
    page.at
}

// The setting U1.
fn u1() -> Setting
    ensures { result ≡ u1_of }
{
    Setting {
        header: 1,
        packing: 1,
        align: 4,
        datapacket: 16,
        longest: 64,
        direction: 0,
    }
}

// Reads a transfer as U1 with a fresh state, and puts the text of the answer at the front of the output.
fn tell(t: &[u8], rows: &mut [u32], out: &mut [u8]) -> usize
    requires { Roomy out.old rows.old }
    ensures { Reports out.old (text_of (read_of u1_of t.now fresh rows.old)) out.new result }
{
    let answer = read(u1(), t, Counter::fresh(), rows);
    put_answer(out, rows, answer)
}

// The program's work: the text of an input at the front of the output. What stood in the table does not matter.
pub fn report(t: &[u8], rows: &mut [u32], out: &mut [u8]) -> usize
    requires { Prepared out.old rows.old }
    ensures { Reports out.old (program_text t.now) out.new result }
{
    if t.len() > 8192 {
        return put_answer(out, rows, Err(Refusal::whole(Reason::Mismatch)));
    }
    tell(t, rows, out)
}
