// The sorts of a term. It may be 4,096 words deep, so it is checked by a loop, and with little memory: of the sorts of the places that are
// still to come, which stand one on the other, the pass looks at those of 256 heights; there are as many passes as the term's length asks for.
ghost use Rattle.std.specs.Prelude.{◌≡◌, true, not, ◌||◌, [], ◌∷◌, ◌+◌, ◌-◌, ◌≤◌, length, get_or, eqb};
ghost use Rattle.system.specs.Limits.{term_words};
ghost use Rattle.system.specs.Signature.{arity};
ghost use Rattle.system.specs.System.{head};
ghost use Rattle.system.specs.Terms.{Whole};
ghost use Rattle.system.specs.Signature.{signature_of};
ghost use Rattle.sorts.specs.Sorts.{offset, result_sort};
ghost use Rattle.sorts.specs.SortCheck.{sorted_term};
ghost use Rattle.sorts.specs.sides.Ran.{Narrow};
ghost use Rattle.sort_test.specs.windows.Windows.{within, windowed, Placed, Put};

use sorts::sides::{listed, offset};
use system::words::arity;

// How many heights a pass looks at.
const WINDOW: usize = 256;

// Puts a sort at a height, if that is in the window, which starts at height low.
fn place(window: &mut [u16; WINDOW], low: usize, at: usize, e: u16)
    ensures { Placed low at e window.old window.new }
{
    if low <= at && at - low < WINDOW {
        window[at - low] = e;
    }
}

// Puts the n numbers of the list from k on, the sorts of the arguments to come, on the height h: the first one highest.
fn put(kinds: &[u16], window: &mut [u16; WINDOW], low: usize, h: usize, k: usize, n: usize)
    requires { (low ≤ term_words) × (h ≤ term_words) × (k ≤ 65535) × (n ≤ 65535) }
    ensures { Put kinds.now low h k n window.old window.new }
{
    for j in 0..n {
        place(window, low, h + (n - 1 - j), listed(kinds, k + j));
    }
}

// A word at height h: whether its sort is that of its place, if that is in the window; then the sorts of its arguments are put there.
#[tactic(auto, using(sorts::proofs::sides::Marking::offset_narrow))]
fn visit(
    book: &[u16],
    kinds: &[u16],
    window: &mut [u16; WINDOW],
    low: usize,
    h: usize,
    w: u16,
) -> bool
    requires { (low ≤ term_words) × (h ≤ term_words) × Narrow (signature_of book.now) }
    ensures compared { result ≡ (not (within low h) || eqb (result_sort (signature_of book.now) kinds.now w)
        (get_or window.old (h - low) 0)) }
    ensures put { result ≡ true → Put kinds.now low h (offset (signature_of book.now) w + 1)
        (arity (signature_of book.now) w) window.old window.new }
{
    let a = arity(book, w);
    if low + WINDOW <= h || h + a < low {
        return true;
    }
    let o = offset(book, w);
    if low <= h && listed(kinds, o) != window[h - low] {
        return false;
    }
    put(kinds, window, low, h, o + 1, a);
    true
}

// One pass over a whole term.
fn pass(book: &[u16], kinds: &[u16], term: &[u16], low: usize) -> bool
    requires { Whole (signature_of book.now) term.now × (length term.now ≤ term_words) × (low ≤ term_words) × Narrow (signature_of book.now) }
    ensures { result ≡ windowed (signature_of book.now) kinds.now low term.now
        (result_sort (signature_of book.now) kinds.now (head term.now) ∷ []) }
{
    let mut window = [0u16; WINDOW];
    window[0] = listed(kinds, offset(book, term[0]));
    let mut due = 1;
    for w in term {
        due -= 1;
        if !visit(book, kinds, &mut window, low, due, *w) {
            return false;
        }
        due += arity(book, *w);
    }
    true
}

// Whether a whole term is well-sorted.
pub fn sorted(book: &[u16], kinds: &[u16], term: &[u16]) -> bool
    requires { Whole (signature_of book.now) term.now × (length term.now ≤ term_words) × Narrow (signature_of book.now) }
    ensures { result ≡ sorted_term (signature_of book.now) kinds.now term.now }
{
    for low in (0..term.len()).step_by(WINDOW) {
        if !pass(book, kinds, term, low) {
            return false;
        }
    }
    true
}
