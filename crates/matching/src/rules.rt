// The inner interface for the layers above: matching against a book.
ghost use Rattle.std.specs.Prelude.{◌≡◌, ◌+◌, ◌≤◌, ◌<◌, length, get_or, take, drop};
ghost use Rattle.system.specs.Limits.{variable, variables};
ghost use Rattle.system.specs.Signature.{signature_of};
ghost use Rattle.reader.specs.Book.{system_of};
ghost use Rattle.matching.specs.declared.FirstRule.TheVariants.{First};
ghost use Rattle.matching.specs.Matching.{same_words};
ghost use Rattle.matching.specs.Bindings.{consumed, taken, with_binding, match_computed, match_of};
ghost use Rattle.matching.specs.rules.Searches.{stretches, Within};

use crate::operators::computed;
use crate::{FirstRule, Match};
use layout::listed::{Rule, rules_of};
use reader::book::Book;
use system::built_ins::LITERAL;
use system::limits::{VARIABLE, VARIABLES};
use system::words::{span, wide};

// How many words at the front of ws a word of a left side takes; 0 where the words are unequal, as the definitions `consumed` and `taken` (specs)
// say it, by which two searches are told.
fn consumed(book: &[u16], l: u16, ws: &[u16]) -> usize
    ensures { (result ≡ consumed (signature_of book.now) l ws.now) × (result ≤ length ws.now) }
{
    let Some(&w) = ws.first() else {
        return 0;
    };
    if VARIABLE <= wide(l) {
        return span(book, ws);
    }
    usize::from(l == w)
}

// Whether the m words from p on are the n words from q on. Parts of other lengths are told at once, and else the first unequal word tells.
fn same_parts(ws: &[u16], p: usize, m: usize, q: usize, n: usize) -> bool
    requires { (p + m ≤ length ws.now) × (q + n ≤ length ws.now) }
    ensures { result ≡ same_words (take m (drop p ws.now)) (take n (drop q ws.now)) }
{
    ws[p..p + m] == ws[q..q + n]
}

// Word i of ws; 0, which is no literal, where it has no such word.
fn word_of(ws: &[u16], i: usize) -> u16
    ensures { result ≡ get_or ws.now i 0 }
{
    ws.get(i).copied().unwrap_or(0)
}

// How many words of ws word l of a left side takes, from word q on; 0, and no binding, where the words are unequal. A variable that has no
// stretch yet has this one then. One that has takes the same words again (02, F-7).
fn bind(
    book: &[u16],
    ws: &[u16],
    starts: &mut [usize],
    lengths: &mut [usize],
    l: u16,
    q: usize,
) -> usize
    requires { (q ≤ length ws.now) × (l < variable + variables) × Within ws.now starts.old lengths.old }
    ensures taken { result ≡ taken (signature_of book.now) ws.now l q
        (stretches starts.old lengths.old) }
    ensures bound { (result ≡ 0 → ⊥) → stretches starts.new lengths.new ≡
        with_binding l q result (stretches starts.old lengths.old) }
    ensures unbound { result ≡ 0 → (starts.new ≡ starts.old) × (lengths.new ≡ lengths.old) }
{
    let n = consumed(book, l, &ws[q..]);
    let w = wide(l);
    if w < VARIABLE {
        return n;
    }
    if n == 0 {
        return 0;
    }
    let v = w - VARIABLE;
    let p = starts[v];
    let m = lengths[v];
    if m == 0 {
        starts[v] = q;
        lengths[v] = n;
        return n;
    }
    if !same_parts(ws, p, m, q, n) {
        return 0;
    }
    n
}

// A listed rule: its number, and where its right side stands.
fn listed(number: usize, rule: Rule) -> FirstRule
    ensures { result ≡ First number (rule.entry.at + 1 + length rule.entry.lhs.now + 1) (length rule.entry.rhs.now) }
{
    FirstRule::First {
        number,
        rhs: rule.at + 1 + rule.lhs.len() + 1,
        size: rule.rhs.len(),
    }
}

// The built-in rule that matches.
fn computed_match(ws: &[u16]) -> Match
    ensures { result ≡ match_computed ws.now }
{
    Match {
        rule: computed(word_of(ws, 0), word_of(ws, 1), word_of(ws, 2)),
        starts: [0; VARIABLES],
        lengths: [0; VARIABLES],
    }
}

// The first rule that matches the subterm at the front of ws; what follows the subterm does not count. A listed left side starts below the
// literals, a built-in one above them, so that one look at the first word tells which rules there may be. Most listed rules start with
// another symbol: they are given up before the stretches are cleared. The two loops have their labels since 01 asks for this form (docs/FORMS.md).
pub fn first_rule(book: &Book<'_>, ws: &[u16]) -> Match
    ensures { result ≡ match_of (system_of book.now.words.now) ws.now }
{
    if LITERAL <= wide(word_of(ws, 0)) {
        return computed_match(ws);
    }
    let mut found = Match {
        rule: None,
        starts: [0; VARIABLES],
        lengths: [0; VARIABLES],
    };
    'rules: for (number, rule) in rules_of(book).enumerate() {
        if consumed(book.words, rule.lhs[0], ws) == 0 {
            continue 'rules;
        }
        let mut starts = [0usize; VARIABLES];
        let mut lengths = [0usize; VARIABLES];
        let mut q = 0;
        'words: for word in rule.lhs {
            let n = bind(book.words, ws, &mut starts, &mut lengths, *word, q);
            if n == 0 {
                continue 'rules;
            }
            q += n;
        }
        found = Match {
            rule: Some(listed(number, rule)),
            starts,
            lengths,
        };
        break 'rules;
    }
    found
}
