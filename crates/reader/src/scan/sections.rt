// The sections of a book, one after the other, up to its end.
ghost use Rattle.std.specs.Prelude.{◌≡◌, ◌+◌, ◌≤◌, ◌<◌, length, get_or, IfOk};
ghost use Rattle.reader.specs.Parser.{read, each, read_strategy, read_rule, read_rules};
ghost use Rattle.system.specs.Signature.{signature_of};
ghost use Rattle.reader.specs.scan.Sections.{section_of, sections_of};

use crate::scan::numbers::{read_number, read_numbers};
use crate::scan::sides::{SideRole, read_side};
use crate::{Refusal, Shape};
use system::limits::{MAX_ARITY, MAX_ENTRIES, MAX_RULES, MAX_SYMBOLS};
use system::numbers::Fault;
use system::words::{symbols, wide};

// Where the sections of a whole book lie: the index of the count of its rules, and the index after its last rule.
#[derive(Clone, Copy)]
pub struct Sections {
    pub rules: usize,
    pub end: usize,
}

// One strategy: a length 0 to 16 and that many entries, each 0 up to the arity. As each section below, it is the index after it.
fn read_strategy(book: &[u16], at: usize, arity: usize) -> Result<usize, Refusal>
    ensures value { result ≡ section_of (read_strategy book.now arity at) }
    ensures within { IfOk result (λ i. i ≤ length book.now) }
{
    let n = read_number(book, at, 0, MAX_ENTRIES, Fault::Range)?;
    read_numbers(book, at + 1, n, arity, Fault::Entry)
}

// The strategies of symbols with these arities.
fn read_strategies(book: &[u16], at: usize, arities: &[u16]) -> Result<usize, Refusal>
    requires { at ≤ length book.now }
    ensures value { result ≡ section_of (each (read_strategy book.now) arities.now at) }
    ensures within { IfOk result (λ i. i ≤ length book.now) }
{
    let mut end = at;
    for arity in arities {
        end = read_strategy(book, end, wide(*arity))?;
    }
    Ok(end)
}

// One rule: its left side, then its right side, which may use the variables of the left.
fn read_rule(book: &[u16], at: usize) -> Result<usize, Refusal>
    ensures value { result ≡ section_of (read_rule book.now (signature_of book.now) at) }
    ensures within { IfOk result (λ i. i ≤ length book.now) }
{
    let l = read_side(book, at, SideRole::Left, 0)?;
    let r = read_side(book, l.end, SideRole::Right, l.known)?;
    Ok(r.end)
}

// The last section, up to the book's end: a count 0 to 128 and that many rules.
fn read_rules(book: &[u16], at: usize) -> Result<usize, Refusal>
    ensures { result ≡ section_of (read_rules book.now (signature_of book.now) at) }
{
    let n = read_number(book, at, 0, MAX_RULES, Fault::Range)?;
    let mut end = at + 1;
    for _ in 0..n {
        end = read_rule(book, end)?;
    }
    if end < book.len() {
        return Err(Refusal {
            fault: Fault::Trailing,
            place: end,
        });
    }
    Ok(end)
}

// The sections of the whole book.
pub fn read_sections(book: &[u16]) -> Result<Sections, Refusal>
    ensures { result ≡ sections_of (read book.now) }
{
    let n = read_number(book, 0, 1, MAX_SYMBOLS, Fault::Range)?;
    let count = read_numbers(book, 1, n, MAX_ARITY, Fault::Range)?;
    read_number(book, count, n, n, Fault::Range)?;
    let rules = read_strategies(book, count + 1, &book[1..count])?;
    let end = read_rules(book, rules)?;
    Ok(Sections { rules, end })
}

// The shape of a book that was read, which has the count of its rules at index `at`.
pub fn shape_at(book: &[u16], at: usize) -> Shape
    requires { at < length book.now }
    ensures { result ≡ record {
      symbols = length (signature_of book.now);
      strategies = length (signature_of book.now) + 2;
      rules = get_or book.now at 0;
      first_rule = at + 1;
    } }
{
    let symbols = symbols(book);
    Shape {
        symbols,
        strategies: symbols + 2,
        rules: wide(book[at]),
        first_rule: at + 1,
    }
}
