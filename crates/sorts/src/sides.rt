// The sorts of a side, by recursion over its words.
ghost use Rattle.std.specs.Prelude.{◌≡◌, List, ℕ, ◌+◌, ◌*◌, ◌≤◌, ◌<◌, length, get_or, drop, IfSome};
ghost use Rattle.system.specs.Limits.{side_words};
ghost use Rattle.system.specs.Signature.{Signature};
ghost use Rattle.system.specs.Signature.{signature_of};
ghost use Rattle.sorts.specs.Sorts.{offset, numbers_from};
ghost use Rattle.sorts.specs.SortCheck.{note, check, sorted_rule};
ghost use Rattle.sorts.specs.sides.Ran.{Ran, Noted, SideChecked, MarkOf, Marked, Narrow, most_entries};

use system::limits::{SIDE_WORDS, VARIABLE, VARIABLES};
use system::words::{arity, symbols, wide};

// The sort of a variable of which none is known. No Option: to `note` in specs/ a sort 64 of a list that nobody checked is unknown too.
const UNSET: u16 = 64;

// What a word of a side is to the recursion: a symbol, with where its numbers start in the list of sorts and how many arguments it takes; a variable,
// by its number; or no word, behind the side.
#[derive(Clone, Copy)]
enum Mark {
    Symbol { start: u16, arguments: u16 },
    Variable(u16),
    Nothing,
}

// Where the numbers of w start in the list of sorts.
pub fn offset(book: &[u16], w: u16) -> usize
    ensures { (result ≡ offset (signature_of book.now) w) × (result ≤ 65535 * 65536) }
{
    let mut o = 0;
    for j in 0..wide(w).min(symbols(book)) {
        o += 1 + arity(book, j as u16);
    }
    o
}

// The number at index i of the list, 0 past its end.
pub fn listed(kinds: &[u16], i: usize) -> u16
    ensures { result ≡ get_or kinds.now i 0 }
{
    kinds.get(i).copied().unwrap_or(0)
}

// Notes the sort e of variable v, or compares it with the one that was noted.
fn note(vars: &mut [u16; VARIABLES], v: usize, e: u16) -> bool
    ensures { Noted (note vars.old v e) result vars.new }
{
    if VARIABLES <= v {
        return true;
    }
    if vars[v] == UNSET {
        vars[v] = e;
    }
    vars[v] == e
}

// The mark of a word.
#[tactic(auto, using(crate::proofs::sides::Marking::offset_narrow))]
fn mark_of(book: &[u16], w: u16) -> Mark
    requires { Narrow (signature_of book.now) }
    ensures { MarkOf (signature_of book.now) w result }
{
    match wide(w).checked_sub(VARIABLE) {
        Some(v) => Mark::Variable(v as u16),
        None => Mark::Symbol {
            start: offset(book, w) as u16,
            arguments: arity(book, w) as u16,
        },
    }
}

// Checks n terms, one behind the other from word `at` of a side on, by the n numbers of the list from k on: each term has the sort of its place,
// and so has each argument in it. The index behind them; none where one fails. Terms that stand behind a term wait for it in a call of its own, but
// the arguments of the last one don't: each call that waits has a term behind the one that it waits for, so that at most 32 are open in 64 words.
fn check(
    kinds: &[u16],
    marks: &[Mark; SIDE_WORDS],
    vars: &mut [u16; VARIABLES],
    at: usize,
    k: usize,
    n: usize,
) -> Option<usize>
    requires { (at ≤ side_words) × (k + n ≤ most_entries) }
    ensures grows { IfSome result (λ r. (at ≤ r) × (r ≤ side_words)) }
    ensures ran { (g : Signature) (ws : List ℕ) → Marked g ws marks.now → at ≤ length ws →
        Ran (check g kinds.now (drop at ws) (numbers_from kinds.now k n) vars.old) ws at result vars.new }
{
    let mut p = at;
    let mut i = k;
    let mut due = n;
    while 0 < due {
        let e = listed(kinds, i);
        match *marks.get(p)? {
            Mark::Variable(v) => {
                if !note(vars, wide(v), e) {
                    return None;
                }
                p += 1;
                i += 1;
                due -= 1;
            }
            Mark::Symbol { start, arguments } => {
                let x = wide(start);
                if listed(kinds, x) != e {
                    return None;
                }
                if due == 1 {
                    p += 1;
                    i = x + 1;
                    due = wide(arguments);
                } else {
                    p = check(kinds, marks, vars, p + 1, x + 1, wide(arguments))?;
                    i += 1;
                    due -= 1;
                }
            }
            Mark::Nothing => return None,
        }
    }
    Some(p)
}

// Whether a side has the sort at index k of the list, by the sorts that are noted of the variables; notes those of others.
fn has_sort(
    book: &[u16],
    kinds: &[u16],
    side: &[u16],
    vars: &mut [u16; VARIABLES],
    k: usize,
) -> bool
    requires { Narrow (signature_of book.now) × (length side.now ≤ side_words) × (k + 1 ≤ most_entries) }
    ensures { SideChecked (check (signature_of book.now) kinds.now side.now
        (numbers_from kinds.now k 1) vars.old) result vars.new }
{
    let mut marks = [Mark::Nothing; SIDE_WORDS];
    for (j, w) in side.iter().enumerate() {
        marks[j] = mark_of(book, *w);
    }
    check(kinds, &marks, vars, 0, k, 1).is_some()
}

// Whether the rule with these sides passes.
#[tactic(auto, using(crate::proofs::sides::Marking::offset_narrow))]
pub fn passes(book: &[u16], kinds: &[u16], lhs: &[u16], rhs: &[u16]) -> bool
    requires { Narrow (signature_of book.now) × (0 < length lhs.now) × (length lhs.now ≤ side_words) × (length rhs.now ≤ side_words) }
    ensures { result ≡ sorted_rule (signature_of book.now) kinds.now
        (record { lhs = lhs.entry.now; rhs = rhs.now }) }
{
    let k = offset(book, lhs[0]);
    let mut vars = [UNSET; VARIABLES];
    has_sort(book, kinds, lhs, &mut vars, k) && has_sort(book, kinds, rhs, &mut vars, k)
}
