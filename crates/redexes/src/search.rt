// The first rule that matches a subterm of a term in the rows (02, F-5): a variable's stretch is one read, and only the rules that start with
// the subterm's symbol are tried.
ghost use Rattle.std.specs.Prelude.{◌≡◌, ◌+◌, ◌-◌, ◌≤◌, ◌<◌, length, get_or, take, drop, MatchOption};
ghost use Rattle.buffers.specs.moves.Parts.{part};
ghost use Rattle.system.specs.Limits.{variable, variables};
ghost use Rattle.system.specs.Signature.{Signature};
ghost use Rattle.system.specs.Signature.{signature_of};
ghost use Rattle.reader.specs.Book.{system_of};
ghost use Rattle.rows.specs.Rows.{Lies, term_in, Gapped};
ghost use Rattle.rows.specs.gap.Gaps.{words_in};
ghost use Rattle.rows.specs.Measured.{Measured};
ghost use Rattle.matching.specs.Matching.{same_words, computed};
ghost use Rattle.matching.specs.Bindings.{consumed, taken, with_binding, computed_rule, match_of};
ghost use Rattle.matching.specs.rules.Searches.{Within};
ghost use Rattle.redexes.specs.search.Parted.{parted};
ghost use Rattle.redexes.specs.search.Redexes.{binding_words, bound_in, some_words, redex_for, redex_of, number_of, Bound};

use buffers::clear;
use layout::index::Index;
use matching::FirstRule;
use matching::operators::computed;
use rows::gap::{Gap, length_at, slot, word_at, words};
use system::built_ins::LITERAL;
use system::limits::{VARIABLE, VARIABLES};

// How many words hold the bindings of a match: where the stretches of the variables start, and how many words they have.
pub const BINDINGS: usize = 2 * VARIABLES;

// A subterm of the term in the rows: where the gap is, and its position.
#[derive(Clone, Copy)]
pub struct Spot {
    pub gap: Gap,
    pub at: usize,
}

// The rule that matches: one that the book lists, or a built-in one and the word that it puts there.
#[derive(Clone, Copy)]
pub enum Redex {
    Listed { number: usize },
    BuiltIn { number: usize, word: u16 },
}

impl Redex {
    // The rule's number.
    pub fn number(self) -> usize
        ensures { result ≡ number_of self }
    {
        match self {
            Redex::Listed { number } => number,
            Redex::BuiltIn { number, .. } => number,
        }
    }
}

// How many words of the term, from word q on, a word of a left side takes; none where the words are unequal.
fn consumed_at(area: &[u16], gap: Gap, l: u16, q: usize) -> Option<usize>
    requires { Gapped area.now gap }
    ensures { (g : Signature) → Measured g area.now gap → result ≡ some_words (consumed g l (drop q (term_in area.now gap))) }
{
    if words(gap) <= q {
        return None;
    }
    if VARIABLE <= usize::from(l) {
        return Some(length_at(area, gap, q));
    }
    if l != word_at(area, gap, q) {
        return None;
    }
    Some(1)
}

// Word q of the term; 0, which is no literal, where it has no such word.
fn word_or_none(area: &[u16], gap: Gap, q: usize) -> u16
    requires { Gapped area.now gap }
    ensures { result ≡ get_or (term_in area.now gap) q 0 }
{
    if words(gap) <= q {
        return 0;
    }
    word_at(area, gap, q)
}

// The built-in rule that matches the subterm at word p of the term, whose first word is `head`.
fn computed_at(area: &[u16], gap: Gap, head: u16, p: usize) -> Option<FirstRule>
    requires { Gapped area.now gap × (p < words_in gap) × (head ≡ get_or (term_in area.now gap) p 0) }
    ensures { result ≡ computed_rule (computed (drop p (term_in area.now gap))) }
{
    computed(
        head,
        word_or_none(area, gap, p + 1),
        word_or_none(area, gap, p + 2),
    )
}

// What was found, without the place of a right side.
fn redex_for(found: Option<FirstRule>) -> Option<Redex>
    ensures { result ≡ redex_for found }
{
    found.map(|rule| match rule {
        FirstRule::First { number, .. } => Redex::Listed { number },
        FirstRule::Computed { number, word } => Redex::BuiltIn { number, word },
    })
}

// Whether the n words of the term from p on lie on both sides of the gap.
fn parted(gap: Gap, p: usize, n: usize) -> bool
    requires { Lies gap × (p + n ≤ words_in gap) }
    ensures { result ≡ parted gap p n }
{
    p < gap.front && gap.front < p + n
}

// Whether n words of an area, from a on, are those from b on; the first unequal word tells.
fn same_slots(area: &[u16], a: usize, b: usize, n: usize) -> bool
    requires { (a + n ≤ length area.now) × (b + n ≤ length area.now) }
    ensures { result ≡ same_words (part a n area.now) (part b n area.now) }
{
    area[a..a + n] == area[b..b + n]
}

// Whether the n words of the term from p on are those from q on, wherever the gap is: each word is looked for.
fn same_around(area: &[u16], gap: Gap, p: usize, q: usize, n: usize) -> bool
    requires { Gapped area.now gap × (p + n ≤ words_in gap) × (q + n ≤ words_in gap) }
    ensures { result ≡ same_words (part p n (term_in area.now gap)) (part q n (term_in area.now gap)) }
{
    for i in 0..n {
        if word_at(area, gap, p + i) != word_at(area, gap, q + i) {
            return false;
        }
    }
    true
}

// Whether the n words of the term from p on are those from q on. Where the gap lies among neither, as mostly, they stand in the row one after
// another, and no word has to be looked for.
fn same_at(area: &[u16], gap: Gap, p: usize, q: usize, n: usize) -> bool
    requires { Gapped area.now gap × (0 < n) × (p + n ≤ words_in gap) × (q + n ≤ words_in gap) }
    ensures { result ≡ same_words (take n (drop p (term_in area.now gap))) (take n (drop q (term_in area.now gap))) }
{
    if parted(gap, p, n) || parted(gap, q, n) {
        return same_around(area, gap, p, q, n);
    }
    same_slots(area, slot(gap, p), slot(gap, q), n)
}

// How many words of the subterm word l of a left side takes, from word q of the term on; none, and no binding, where the words are unequal. A
// variable that has no stretch yet has this one then. One that has takes the same words again (02, F-7): other lengths are told at once.
fn bind(area: &[u16], spot: Spot, bindings: &mut [u16], l: u16, q: usize) -> Option<usize>
    requires { ((g : Signature) × Measured g area.now spot.gap) × (spot.at ≤ q) × (l < variable + variables)
        × (length bindings.old ≡ binding_words)
        × Within (drop spot.at (term_in area.now spot.gap)) (bound_in bindings.old).starts (bound_in bindings.old).lengths }
    ensures taken { (g : Signature) → Measured g area.now spot.gap →
        result ≡ some_words (taken g (drop spot.at (term_in area.now spot.gap)) l (q - spot.at) (bound_in bindings.old)) }
    ensures bound { MatchOption result (bindings.new ≡ bindings.old)
        (λ n. bound_in bindings.new ≡ with_binding l (q - spot.at) n (bound_in bindings.old)) }
{
    let n = consumed_at(area, spot.gap, l, q)?;
    let w = usize::from(l);
    if w < VARIABLE {
        return Some(n);
    }
    let v = w - VARIABLE;
    let m = usize::from(bindings[VARIABLES + v]);
    if m == 0 {
        bindings[v] = (q - spot.at) as u16;
        bindings[VARIABLES + v] = n as u16;
        return Some(n);
    }
    if m != n {
        return None;
    }
    if !same_at(area, spot.gap, spot.at + usize::from(bindings[v]), q, n) {
        return None;
    }
    Some(n)
}

// The first rule that matches the subterm there; where it is one that the book lists, its bindings are written. Only the rules in the list of
// the subterm's first word are tried, and of these those that start with it: a rule that starts with another symbol does not match. That the
// loops are labelled, and how they are left, is document 01's form (docs/FORMS.md); the outer one goes along a list, not by an index.
pub fn first_redex(
    index: &Index<'_>,
    area: &[u16],
    spot: Spot,
    bindings: &mut [u16],
) -> Option<Redex>
    requires { Measured (signature_of index.now.book.words.now) area.now spot.gap
        × (spot.at < words_in spot.gap) × (length bindings.old ≡ binding_words) }
    ensures found { result ≡ redex_of (system_of index.now.book.words.now) (drop spot.at (term_in area.now spot.gap)) }
    ensures bound { Bound (match_of (system_of index.now.book.words.now) (drop spot.at (term_in area.now spot.gap)))
        bindings.new }
{
    let Spot { gap, at: p } = spot;
    let index = *index; // a copy, which no write of a binding can change: its parts are not read again for each rule
    let head = word_at(area, gap, p);
    if LITERAL <= usize::from(head) {
        return redex_for(computed_at(area, gap, head, p));
    }
    let mut found = None;
    let mut next = index.first_of(head);
    'rules: while let Some(number) = next {
        let rule = index.rule(number);
        next = index.next_of(number);
        if rule.lhs[0] != head {
            continue 'rules;
        }
        clear(bindings, 0, BINDINGS);
        let mut q = p + 1;
        'words: for &l in &rule.lhs[1..] {
            let Some(n) = bind(area, spot, bindings, l, q) else {
                continue 'rules;
            };
            q += n;
        }
        found = Some(Redex::Listed { number });
        break 'rules;
    }
    found
}
