// Text that is put into a lent output: bytes, numbers in decimal, and the line of a refusal.
#![tactic(auto)]

ghost use Rattle.std.specs.Prelude.{◌≡◌, length};
ghost use Rattle.store.specs.Store.{Short};
ghost use Rattle.spelling.specs.Put.{Spelt};
ghost use Rattle.spelling.specs.Page.{Adds, Room};
ghost use Rattle.spelling.specs.Text.{word, refused_text};

use store::put_packet;

// A number's decimal digits at the front of a text, and how many there are.
fn spell(n: u32, text: &mut [u8; 20]) -> usize
    ensures { Spelt n text.new result }
{
    io::decimal(n as u64, text)
}

// A lent output, and the place in it where the next text goes.
#[derive(Drop)]
pub struct Page<'a> {
    pub out: &'a mut [u8],
    pub at: usize,
}

impl<'a> Page<'a> {
    // At the front of an output.
    pub fn new(out: &'a mut [u8]) -> Page<'a>
        ensures same { result.out.ghost_name ≡ out.entry.ghost_name }
        ensures lent { result.out.now ≡ out.old }
        ensures front { result.at ≡ 0 }
    {
        Page { out, at: 0 }
    }

    // Puts bytes.
    pub fn bytes(&mut self, bytes: &[u8])
        requires { Short self.old.out.now self.old.at (length bytes.now) 0 65536 }
        ensures { Adds self.old bytes.now (length bytes.now) self.new }
    {
        put_packet(true, self.out, self.at, bytes);
        self.at += bytes.len();
    }

    // Puts a number in decimal and the byte behind it.
    pub fn word(&mut self, n: u32, behind: u8)
        requires { Room self.old 11 }
        ensures { Adds self.old (word n behind) 11 self.new }
    {
        let mut text = [0u8; 20];
        let k = spell(n, &mut text);
        self.bytes(&text[0..k]);
        self.out[self.at] = behind;
        self.at += 1;
    }

    // Puts the line of a refusal, of any number. With `write!` into the page the proof did not close: what `write!` wrote is known only where it gives Ok,
    // and nothing says that it does where there is room.
    pub fn refusal(&mut self, number: u32, place: u32)
        requires { Room self.old 30 }
        ensures { Adds self.old (refused_text number place) 30 self.new }
    {
        self.bytes(b"refused ");
        self.word(number, b' ');
        self.word(place, b'\n');
    }
}
