// The sides of rules, word by word.
ghost use Rattle.std.specs.Prelude.{◌≡◌, true, ◌+◌, ◌≤◌, length, IfOk};
ghost use Rattle.system.specs.Limits.{max_word, side_words};
ghost use Rattle.reader.specs.Parser.{read_words, read_side, side_fault, symbol_fault, variable_fault, learn};
ghost use Rattle.system.specs.Signature.{signature_of};
ghost use Rattle.reader.specs.scan.Sections.{side_of, found};

use crate::Refusal;
use crate::scan::numbers::read_number;
use system::limits::{PAST_VARIABLES, SIDE_WORDS, VARIABLE};
use system::numbers::Fault;
use system::words::{arity, is_symbol, symbols, wide};

// Which side of a rule is read.
#[derive(Clone, Copy)]
pub enum SideRole {
    Left,
    Right,
}

// A side that was read: the index after it, and how many variables are known after it.
#[derive(Clone, Copy)]
pub struct Side {
    pub end: usize,
    pub known: usize,
}

// What is wrong with variable k of a side, where `known` are known.
#[tactic(auto, unfolding(crate::specs::Parser::variable_fault))]
fn variable_fault(role: SideRole, first: bool, known: usize, k: usize) -> Option<Fault>
    ensures { result ≡ found (variable_fault role first known k) }
{
    match role {
        SideRole::Left if first => Some(Fault::VariableHead),
        SideRole::Left => (known < k).then_some(Fault::Unbound),
        SideRole::Right => (known <= k).then_some(Fault::Unbound),
    }
}

// What is wrong with symbol w of a side: that a left side starts with one that is not listed.
#[tactic(auto, unfolding(crate::specs::Parser::symbol_fault))]
fn symbol_fault(book: &[u16], role: SideRole, first: bool, w: u16) -> Option<Fault>
    ensures { result ≡ found (symbol_fault (signature_of book.now) role first w) }
{
    match role {
        SideRole::Left if first => (symbols(book) <= wide(w)).then_some(Fault::BuiltInHead),
        _ => None,
    }
}

// What is wrong with word w of a side, where `due` subterms are still to come: 5, 4, 6 or 15, or 7, checked in this order.
#[tactic(auto, unfolding(crate::specs::Parser::side_fault))]
fn side_fault(
    book: &[u16],
    role: SideRole,
    first: bool,
    due: usize,
    known: usize,
    w: u16,
) -> Option<Fault>
    ensures { result ≡ found (side_fault (signature_of book.now) role first due known w) }
{
    if due == 0 {
        return Some(Fault::Unbalanced);
    }
    if is_symbol(book, w) {
        return symbol_fault(book, role, first, w);
    }
    let x = wide(w);
    if !(VARIABLE..PAST_VARIABLES).contains(&x) {
        return Some(Fault::Unknown);
    }
    variable_fault(role, first, known, x - VARIABLE)
}

// How many different variables are known after word w.
#[tactic(auto, unfolding(crate::specs::Parser::learn))]
fn learn(role: SideRole, known: usize, w: u16) -> usize
    requires { known ≤ max_word }
    ensures { (result ≡ learn role known w) × (result ≤ known + 1) }
{
    match role {
        SideRole::Left if wide(w) == VARIABLE + known => known + 1,
        _ => known,
    }
}

// The n words of a side, which are one term.
fn read_words(
    book: &[u16],
    at: usize,
    n: usize,
    role: SideRole,
    known: usize,
) -> Result<Side, Refusal>
    requires { (at ≤ length book.now) × (n ≤ side_words) × (known ≤ side_words) }
    ensures value { result ≡ side_of (read_words book.now (signature_of book.now) role true n 1 known at) }
    ensures within { IfOk result (λ s. (s.end ≤ length book.now) × (s.known ≤ known + side_words)) }
{
    let mut due = 1;
    let mut seen = known;
    for j in 0..n {
        let place = at + j;
        let Some(w) = book.get(place) else {
            return Err(Refusal {
                fault: Fault::Missing,
                place,
            });
        };
        if let Some(fault) = side_fault(book, role, j == 0, due, seen, *w) {
            return Err(Refusal { fault, place });
        }
        due = due - 1 + arity(book, *w);
        seen = learn(role, seen, *w);
    }
    let end = at + n;
    if due != 0 {
        return Err(Refusal {
            fault: Fault::Unbalanced,
            place: end,
        });
    }
    Ok(Side { end, known: seen })
}

// A side: a length 1 to 64 and that many words.
pub fn read_side(book: &[u16], at: usize, role: SideRole, known: usize) -> Result<Side, Refusal>
    requires { known ≤ side_words }
    ensures value { result ≡ side_of (read_side book.now (signature_of book.now) role known at) }
    ensures within { IfOk result (λ s. (s.end ≤ length book.now) × (s.known ≤ known + side_words)) }
{
    let n = read_number(book, at, 1, SIDE_WORDS, Fault::Range)?;
    read_words(book, at + 1, n, role, known)
}
