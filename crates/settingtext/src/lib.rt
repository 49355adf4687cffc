// The text of the settings that a description file says: a line for each endpoint, or the line of a refusal.
#![tactic(auto)]

ghost use Rattle.std.specs.Prelude.{◌≡◌};
ghost use Rattle.store.specs.Store.{Inside};
ghost use Rattle.keywords.specs.Saying.{told};
ghost use Rattle.description.specs.Described.{described_said};
ghost use Rattle.spelling.specs.Page.{Adds, Room};
ghost use Rattle.spelling.specs.Put.{Reports};
ghost use Rattle.settingtext.specs.Text.{numbers_of, lines_of, described_text, argument as argument_of, program_text};

use description::Both;
use keywords::based;
use packet::{Reason, Refusal};
use settings::settings;
use spelling::Page;
use usb::Setting;

// The longest packet, from how many words the program was called with, its own name among them, and the first behind the name.
#[tactic(auto, unfolding(crate::specs::Text::argument))]
pub fn argument(words: usize, first: &[u8]) -> Option<u32>
    ensures { result ≡ told (argument_of words first.now) }
{
    if words == 2 {
        return based(first, 10, 4294967295);
    }
    None
}

// Puts the numbers of a setting.
fn put_numbers(page: &mut Page, s: Setting)
    requires { Room page.old 66 }
    ensures { Adds page.old (numbers_of s) 66 page.new }
{
    page.word(s.header, b' ');
    page.word(s.packing, b' ');
    page.word(s.align, b' ');
    page.word(s.datapacket, b' ');
    page.word(s.longest, b' ');
    page.word(s.direction, b'\n');
}

// Puts the lines of both settings.
fn put_lines(page: &mut Page, cmd: Setting, res: Setting)
    requires { Room page.old 149 }
    ensures { Adds page.old (lines_of cmd res) 149 page.new }
{
    page.bytes(b"cmd_stim ");
    put_numbers(page, cmd);
    page.bytes(b"res_daq ");
    put_numbers(page, res);
}

// Puts the text of an answer at the front.
fn put_described(out: &mut [u8], answer: Result<Both, Refusal>) -> usize
    requires { Inside out.old 0 149 }
    ensures { Reports out.old (described_text (described_said answer)) out.new result }
{
    let mut page = Page::new(out);
    match answer {
        Ok(both) => put_lines(&mut page, both.cmdstim, both.resdaq),
        Err(refusal) => page.refusal(u32::from(refusal.reason), refusal.place),
    }
    page.at
}

// The program's work: the text of an input at the front of the output.
#[tactic(auto, unfolding(crate::specs::Text::program_text))]
pub fn report(t: &[u8], longest: Option<u32>, out: &mut [u8]) -> usize
    requires { Inside out.old 0 149 }
    ensures { Reports out.old (program_text t.now longest) out.new result }
{
    let answer = match longest {
        Some(x) => settings(t, x),
        None => Err(Refusal::whole(Reason::Unsound)),
    };
    put_described(out, answer)
}
