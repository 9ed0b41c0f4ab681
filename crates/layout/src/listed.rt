// The rules that an accepted book lists, one after the other.
ghost use Rattle.std.specs.Prelude.{◌≡◌, ◌≤◌, ◌<◌, ◌+◌, length, drop};
ghost use Rattle.system.specs.Limits.{side_words, max_word};
ghost use Rattle.reader.specs.Format.{encode_rules};
ghost use Rattle.layout.specs.listed.Walked.{rules_left, KnownWords};

use crate::rules::rule_at;
use reader::book::Book;

// A rule of an accepted book: its two sides, and the index in the book of the length before the first.
#[derive(Clone, Copy)]
pub struct Rule<'a> {
    pub at: usize,
    pub lhs: &'a [u16],
    pub rhs: &'a [u16],
    pub ghost inside: { at + 2 + length lhs.now + length rhs.now ≤ max_word },
    pub ghost headed: { 0 < length lhs.now },
    pub ghost short: { (length lhs.now ≤ side_words) × (length rhs.now ≤ side_words) },
    pub ghost known: { KnownWords lhs.now × KnownWords rhs.now },
}

// Those rules from the one at `at` on, `left` of them.
#[derive(Clone, Copy)]
pub struct Rules<'a> {
    book: Book<'a>,
    at: usize,
    left: usize,
    pub ghost within: { left ≤ book.shape.rules },
    pub ghost stands: { drop at book.words.now ≡ encode_rules (rules_left book.words.now left) },
}

impl<'a> Iterator for Rules<'a> {
    ghost use Rattle.std.specs.Iterator.{item_count};
    ghost use Rattle.layout.specs.listed.Listed.{rest_of, YieldsRule};

    type Item = Rule<'a>;

    ghost next_gives = { YieldsRule };

    ghost remaining = { item_count rest_of };

    fn next(&mut self) -> Option<Rule<'a>> {
        if self.left == 0 {
            return None;
        }
        let rule = rule_at(&self.book, self.at);
        self.at += 2 + rule.lhs.len() + rule.rhs.len();
        self.left -= 1;
        Some(rule)
    }
}

// The rules of a book, in its order.
pub fn rules_of<'a>(book: &Book<'a>) -> Rules<'a>
    ensures at { result.at ≡ book.now.shape.first_rule }
    ensures left { result.left ≡ book.now.shape.rules }
    ensures book { result.book.words.now ≡ book.now.words.now }
{
    Rules {
        book: *book,
        at: book.shape.first_rule,
        left: book.shape.rules,
    }
}
