// Finding the next word of a text. Runs of bytes are passed eight at a time; behind them each byte is looked at.
#![tactic(auto)]

ghost use Rattle.std.specs.Prelude.{◌≡◌, ◌<◌, ◌≤◌, ◌+◌, ℕ, length, drop, get_or};
ghost use Rattle.words.specs.Words.{is_blank, start as start_of, ends_word, ends_line};
ghost use Rattle.finding.specs.Finding.{slash_by, ends_comment, ends_string, FirstPlace, Sought, Closed, Passing, NextWord};

use words::{Start, Word, Wrong};

fn blank(b: u8) -> bool
    ensures { result ≡ is_blank b }
{
    (b == b' ') | (b == b'\t') | (b == b'\r') | (b == b'\n')
}

// The first place from k on that passes the test.
fn first_place<F: Fn(usize) -> bool>(t: &[u8], k: usize, test: F) -> Option<usize>
    requires callable { (i : ℕ) → i < length t.now → F.pre test i }
    requires inside { k ≤ length t.now }
    ensures { FirstPlace (F.post test) k (length t.now) result }
{
    for i in k..t.len() {
        if test(i) {
            return Some(i);
        }
    }
    None
}

// Where the blanks behind the one at place q end.
fn blanks_end(t: &[u8], q: usize) -> usize
    requires { q + 1 ≤ length t.now }
    ensures { Passing t.now (q + 1) result }
{
    let k = runs::along(t, q + 1, b' ');
    first_place(t, k, |i| !blank(t[i])).unwrap_or(t.len())
}

// The byte behind place q; 0 where the text ends.
fn second(t: &[u8], q: usize) -> u8
    requires { q < length t.now }
    ensures { result ≡ get_or t.now (q + 1) 0 }
{
    let k = q + 1;
    if k < t.len() {
        return t[k];
    }
    0
}

// What starts with a slash, by what the byte behind it opens.
fn slash(comment: bool, line: bool) -> Start
    ensures { result ≡ slash_by comment line }
{
    if comment {
        return Start::Comment;
    }
    if line {
        return Start::Line;
    }
    Start::Other
}

// What starts at place q. Most bytes are over the slash, where nothing but a word starts; only the slash asks for the byte behind it.
fn starting(t: &[u8], q: usize) -> Start
    ensures { result ≡ start_of (drop q t.now) }
{
    if q < t.len() {
        let b = t[q];
        if b > b'/' {
            return Start::Other;
        }
        if b == b'/' {
            let c = second(t, q);
            return slash(c == b'*', c == b'/');
        }
        if blank(b) {
            return Start::Blank;
        }
        if b == b'"' {
            return Start::Quote;
        }
        return Start::Other;
    }
    Start::Nothing
}

// Where the word that starts at place q ends: behind its first byte. No word ends at a byte over the slash, 47.
fn word_end(t: &[u8], q: usize) -> usize
    requires { q + 1 ≤ length t.now }
    ensures { Sought ends_word t.now (q + 1) result }
{
    let k = runs::over(t, q + 1, 48);
    first_place(t, k, |i| starting(t, i) != Start::Other).unwrap_or(t.len())
}

// Where the comment that starts at place q with two slashes ends. LF and CR are below 14.
fn line_end(t: &[u8], q: usize) -> usize
    requires { q + 2 ≤ length t.now }
    ensures { Sought ends_line t.now (q + 2) result }
{
    let k = runs::over(t, q + 2, 14);
    first_place(t, k, |i| (t[i] == b'\n') | (t[i] == b'\r')).unwrap_or(t.len())
}

// Where the closing mark of the string that starts at place q stands.
fn string_end(t: &[u8], q: usize) -> Result<usize, Wrong>
    requires { q + 1 ≤ length t.now }
    ensures { Closed ends_string t.now (q + 1) result }
{
    let k = runs::without(t, q + 1, b'"');
    first_place(t, k, |i| t[i] == b'"').ok_or(Wrong { place: t.len() })
}

// Where the closing star of the comment that starts at place q stands.
fn comment_end(t: &[u8], q: usize) -> Result<usize, Wrong>
    requires { q + 2 ≤ length t.now }
    ensures { Closed ends_comment t.now (q + 2) result }
{
    let k = runs::without(t, q + 2, b'*');
    first_place(t, k, |i| t[i] == b'*' && second(t, i) == b'/').ok_or(Wrong { place: t.len() })
}

// The next word from place q on; none at the text's end. A text that ends inside what is not closed is wrong there.
pub fn next_word(t: &[u8], q: usize) -> Result<Option<Word>, Wrong>
    requires { q ≤ length t.now }
    ensures { NextWord t.now q result }
{
    let mut k = q;
    loop {
        match starting(t, k) {
            Start::Nothing => return Ok(None),
            Start::Blank => k = blanks_end(t, k),
            Start::Comment => k = comment_end(t, k)? + 2,
            Start::Line => k = line_end(t, k),
            Start::Quote => {
                let to = string_end(t, k)? + 1;
                return Ok(Some(Word { from: k, to }));
            }
            Start::Other => {
                let to = word_end(t, k);
                return Ok(Some(Word { from: k, to }));
            }
        }
    }
}
