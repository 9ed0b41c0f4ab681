// Text for the programs, in fixed memory: lines, numbers, the three numbers of an answer, and words; written into bytes that are lent, or put on a
// page.
//
// Each function writes from the index `at` on and answers the index behind what it wrote; its contract gives the whole text at exit. A page goes by
// the same functions, in bytes of its own.
//
// Functions and methods, and no `write!` or Display: these promise their text only where they answer Ok, and `report::report` and `verdict`
// promise it outright.
#![tactic(auto)]

ghost use Rattle.std.specs.Prelude.{◌≡◌, ◌+◌, ◌*◌, ◌≤◌, ◌<◌, [], ◌∷◌, ◌++◌, length};
ghost use Rattle.printing.specs.Text.{decimal, line, heading, numbers_line, word_lines};
ghost use Rattle.printing.specs.lent.Written.{Written};

use std::marker::Model;
use system::Answer;

// Bytes as they are.
pub fn put(text: &mut [u8], at: usize, bytes: &[u8]) -> usize
    requires { at + length bytes.now ≤ length text.old }
    ensures { Written text.old at bytes.now result text.new }
{
    let end = at + bytes.len();
    text[at..end].copy_from_slice(bytes);
    end
}

// Bytes, and the line's end.
pub fn put_line(text: &mut [u8], at: usize, bytes: &[u8]) -> usize
    requires { at + length bytes.now < length text.old }
    ensures { Written text.old at (line bytes.now) result text.new }
{
    let end = put(text, at, bytes);
    put(text, end, b"\n")
}

// The heading of an answer.
#[tactic(auto, unfolding(crate::specs::Text::heading))]
pub fn put_heading(text: &mut [u8], at: usize) -> usize
    requires { at + 19 ≤ length text.old }
    ensures { Written text.old at heading result text.new }
{
    put_line(text, at, b"number place steps")
}

// A number's decimal digits. A place comes by `as u64`, here and in check_book: std has no From for it.
#[tactic(auto, using(crate::proofs::Decimals::decimal_written))]
pub fn put_decimal(text: &mut [u8], at: usize, n: u64) -> usize
    requires { at + length (decimal n) ≤ length text.old }
    ensures { Written text.old at (decimal n) result text.new }
{
    put(text, at, itoa::Buffer::new().format(n).as_bytes())
}

// A number's decimal digits, and one byte behind them.
fn put_number(text: &mut [u8], at: usize, n: u64, mark: u8) -> usize
    requires { at + length (decimal n) < length text.old }
    ensures { Written text.old at (decimal n ++ (mark ∷ [])) result text.new }
{
    let end = put_decimal(text, at, n);
    text[end] = mark;
    end + 1
}

// The three numbers of an answer on a line: no more than 10, 20 and 10 digits.
pub fn put_numbers(text: &mut [u8], at: usize, a: Answer) -> usize
    requires { at + 43 ≤ length text.old }
    ensures { Written text.old at (numbers_line a) result text.new × (result ≤ at + 43) }
{
    let Answer {
        number,
        place,
        steps,
    } = a;
    let end = put_number(text, at, u64::from(number), b' ');
    let end = put_number(text, end, place as u64, b' ');
    put_number(text, end, u64::from(steps), b'\n')
}

// A word a line, each of no more than 5 digits.
pub fn put_words(text: &mut [u8], at: usize, ws: &[u16]) -> usize
    requires { at + 6 * length ws.now ≤ length text.old }
    ensures { Written text.old at (word_lines ws.now) result text.new }
{
    let mut end = at;
    for w in ws {
        end = put_number(text, end, u64::from(*w), b'\n');
    }
    end
}

// A text of at most N bytes. In a contract a page is the list of the bytes that were put so far.
#[derive(Drop)]
pub struct Page<const N: usize> {
    bytes: [u8; N],
    len: usize,
}

impl<const N: usize> Model for Page<N> {
    ghost use Rattle.std.specs.Prelude.{ℕ, ◌≤◌, List, take};

    ghost Value = { List ℕ };

    ghost view = { λ p. take p.len p.bytes };

    ghost invariant = { λ p. p.len ≤ N };
}

impl<const N: usize> Page<N> {
    pub fn new() -> Page<N>
        ensures { result ≡ [] }
    {
        Page {
            bytes: [0; N],
            len: 0,
        }
    }

    // How many more bytes have room.
    pub fn room(&self) -> usize
        ensures { result + length self.now ≡ N }
    {
        N - self.len
    }

    pub fn as_bytes(&self) -> &[u8]
        ensures { result.now ≡ self.now }
    {
        &self.bytes[..self.len]
    }

    // A text as it is.
    #[tactic(auto, using(crate::proofs::Writing::written_page))]
    pub fn put(&mut self, text: &str)
        requires { length self.old + length text.now ≤ N }
        ensures whole { self.new ≡ self.old ++ text.now }
        ensures len { length self.new ≡ length self.old + length text.now }
    {
        self.len = put(&mut self.bytes, self.len, text.as_bytes());
    }

    // A text, and the line's end.
    #[tactic(auto, using(crate::proofs::Writing::written_page))]
    pub fn put_line(&mut self, text: &str)
        requires { length self.old + length text.now < N }
        ensures whole { self.new ≡ self.old ++ line text.now }
        ensures len { length self.new ≡ length self.old + length text.now + 1 }
    {
        self.len = put_line(&mut self.bytes, self.len, text.as_bytes());
    }

    // The heading of an answer.
    #[tactic(auto, unfolding(crate::specs::Text::heading))]
    pub fn put_heading(&mut self)
        requires { length self.old + 19 ≤ N }
        ensures whole { self.new ≡ self.old ++ heading }
        ensures len { length self.new ≡ length self.old + 19 }
    {
        self.len = put_heading(&mut self.bytes, self.len);
    }

    // A number's decimal digits.
    #[tactic(auto, using(crate::proofs::Writing::written_page))]
    pub fn put_decimal(&mut self, n: u64)
        requires { length self.old + length (decimal n) ≤ N }
        ensures whole { self.new ≡ self.old ++ decimal n }
        ensures len { length self.new ≡ length self.old + length (decimal n) }
    {
        self.len = put_decimal(&mut self.bytes, self.len, n);
    }

    // The three numbers of an answer on a line.
    #[tactic(auto, using(crate::proofs::Writing::written_page))]
    pub fn put_numbers(&mut self, a: Answer)
        requires { length self.old + 43 ≤ N }
        ensures whole { self.new ≡ self.old ++ numbers_line a }
        ensures short { length self.new ≤ length self.old + 43 }
    {
        self.len = put_numbers(&mut self.bytes, self.len, a);
    }

    // A word a line.
    #[tactic(auto, using(crate::proofs::Writing::written_page))]
    pub fn put_words(&mut self, ws: &[u16])
        requires { length self.old + 6 * length ws.now ≤ N }
        ensures { self.new ≡ self.old ++ word_lines ws.now }
    {
        self.len = put_words(&mut self.bytes, self.len, ws);
    }
}
