// Where the strategies and the rules stand in a book, and the rules by the first words of their left sides: an index, made once per call.
ghost use Rattle.std.specs.Prelude.{◌≡◌, ◌≤◌, ◌<◌, IfSome};
ghost use Rattle.system.specs.System.{strategy, rule};
ghost use Rattle.reader.specs.Book.{system_of};
ghost use Rattle.layout.specs.listed.Listed.{rule_of};
ghost use Rattle.layout.specs.index.Accepted.{RulesAt};
ghost use Rattle.layout.specs.index.Index.{bucket, rule_from, rule_after, RuleNumber, StrategiesNoted, RulesNoted, Linked, Indexed};

use crate::listed::{Rule, rules_of};
use crate::rules::rule_at;
use crate::strategies::strategies_of;
use reader::book::Book;
use system::limits::{MAX_RULES, MAX_SYMBOLS};
use system::words::wide;

// A left side's first word falls in one of so many buckets, by the remainder.
const BUCKETS: usize = 64;

// The words of an index: where each strategy stands, where each rule stands, the first rule of each bucket, and the rule that follows each in its
// bucket. No accepted book is so long that an index into it is not a word.
#[derive(Drop)]
pub struct Places {
    strategies: [u16; MAX_SYMBOLS],
    rules: [u16; MAX_RULES],
    firsts: [u16; BUCKETS],
    nexts: [u16; MAX_RULES],
}

impl Places {
    pub const EMPTY: Places = Places {
        strategies: [0; MAX_SYMBOLS],
        rules: [0; MAX_RULES],
        firsts: [0; BUCKETS],
        nexts: [0; MAX_RULES],
    };
}

// A book with its index.
#[derive(Clone, Copy)]
pub struct Index<'a> {
    pub book: Book<'a>,
    places: &'a Places,
    ghost indexed: { Indexed book.words.now book.shape places.now },
}

// Notes where each strategy stands.
fn note_strategies(book: &Book<'_>, strategies: &mut [u16; MAX_SYMBOLS])
    ensures { StrategiesNoted book.now.words.now book.now.shape.symbols strategies.new }
{
    for (f, strategy) in strategies_of(book).enumerate() {
        strategies[f] = strategy.at as u16;
    }
}

// Notes where each rule stands.
fn note_rules(book: &Book<'_>, rules: &mut [u16; MAX_RULES])
    ensures { RulesNoted book.now.words.now book.now.shape.rules rules.new }
{
    for (k, rule) in rules_of(book).enumerate() {
        rules[k] = rule.at as u16;
    }
}

// Puts each rule, the last one first, in front of its bucket's list; every list starts at its end.
fn link_rules(
    book: &Book<'_>,
    rules: &[u16; MAX_RULES],
    firsts: &mut [u16; BUCKETS],
    nexts: &mut [u16; MAX_RULES],
)
    requires { RulesNoted book.now.words.now book.now.shape.rules rules.now }
    ensures { Linked book.now.words.now 0 firsts.new nexts.new }
{
    firsts.fill(book.shape.rules as u16);
    for k in (0..book.shape.rules).rev() {
        let rule = rule_at(book, wide(rules[k]));
        let first = wide(rule.lhs[0]) % BUCKETS;
        nexts[k] = firsts[first];
        firsts[first] = k as u16;
    }
}

// Writes the index of a book.
pub fn build_index<'a>(book: &Book<'a>, places: &'a mut Places) -> Index<'a>
    ensures { result.book ≡ book.now }
{
    note_strategies(book, &mut places.strategies);
    note_rules(book, &mut places.rules);
    link_rules(book, &places.rules, &mut places.firsts, &mut places.nexts);
    Index {
        book: *book,
        places,
    }
}

impl<'a> Index<'a> {
    // The entries of the strategy of symbol f.
    pub fn entries_of(&self, f: usize) -> &'a [u16]
        requires { f < self.now.book.shape.symbols }
        ensures { result.now ≡ strategy (system_of self.now.book.words.now) f }
    {
        let at = wide(self.places.strategies[f]);
        let first = at + 1;
        let end = first + wide(self.book.words[at]);
        &self.book.words[first..end]
    }

    // Rule k, and where it stands.
    pub fn rule(&self, k: usize) -> Rule<'a>
        requires { k < self.now.book.shape.rules }
        ensures at { RulesAt self.now.book.words.now k result.at }
        ensures sides { rule_of result ≡ rule (system_of self.now.book.words.now) k }
    {
        let at = wide(self.places.rules[k]);
        rule_at(&self.book, at)
    }

    // The number of a rule that a word of the lists is; the number of rules, which ends a list, is none.
    fn number(&self, word: u16) -> Option<usize>
        requires { word ≤ self.now.book.shape.rules }
        ensures { RuleNumber self.now.book.shape.rules word result }
    {
        let k = wide(word);
        if k < self.book.shape.rules {
            return Some(k);
        }
        None
    }

    // The first rule whose left side may start with w: the first of the bucket of w.
    pub fn first_of(&self, w: u16) -> Option<usize>
        ensures { RuleNumber self.now.book.shape.rules (rule_from (system_of self.now.book.words.now) 0 (bucket w)) result }
    {
        self.number(self.places.firsts[wide(w) % BUCKETS])
    }

    // The next rule in the bucket of rule k.
    pub fn next_of(&self, k: usize) -> Option<usize>
        requires { k < self.now.book.shape.rules }
        ensures number { RuleNumber self.now.book.shape.rules (rule_after (system_of self.now.book.words.now) k) result }
        ensures later { IfSome result (λ n. k < n) }
    {
        self.number(self.places.nexts[k])
    }
}
