// Symbols, their arities, and the spans of subterms, as the words of any book give them.
ghost use Rattle.std.specs.Prelude.{◌≡◌, ◌≤◌, length};
ghost use Rattle.system.specs.Limits.{max_word};
ghost use Rattle.system.specs.Signature.{is_symbol, arity, span};
ghost use Rattle.system.specs.Signature.{signature_of};

use crate::built_ins::{built_in_arity, is_built_in};

pub fn wide(x: u16) -> usize
    ensures { (result ≡ x) × (result ≤ max_word) }
{
    usize::from(x)
}

// How many symbols the book lists: as many as its first word says, if that many words are there.
pub fn symbols(book: &[u16]) -> usize
    ensures { result ≡ length (signature_of book.now) }
{
    match book.split_first() {
        Some((n, rest)) => wide(*n).min(rest.len()),
        None => 0,
    }
}

// Whether w is a symbol, listed or built in.
pub fn is_symbol(book: &[u16], w: u16) -> bool
    ensures { result ≡ is_symbol (signature_of book.now) w }
{
    wide(w) < symbols(book) || is_built_in(w)
}

// How many arguments w takes.
pub fn arity(book: &[u16], w: u16) -> usize
    ensures { (result ≡ arity (signature_of book.now) w) × (result ≤ max_word) }
{
    let i = wide(w);
    if i < symbols(book) {
        return wide(book[i + 1]);
    }
    built_in_arity(w)
}

// How many words the first k subterms of ws take; all of ws where it ends before.
pub fn spans(book: &[u16], ws: &[u16], k: usize) -> usize
    ensures { (result ≡ span (signature_of book.now) ws.now k) × (result ≤ length ws.now) }
{
    let mut due = k;
    for (i, w) in ws.iter().enumerate() {
        if due == 0 {
            return i;
        }
        if ws.len() - i <= due {
            return ws.len();
        }
        due = due - 1 + arity(book, *w);
    }
    ws.len()
}

// How many words the subterm at the front of ws takes.
pub fn span(book: &[u16], ws: &[u16]) -> usize
    ensures { (result ≡ span (signature_of book.now) ws.now 1) × (result ≤ length ws.now) }
{
    spans(book, ws, 1)
}
