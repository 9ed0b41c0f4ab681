// A rule where it stands in a book: a length and its left side, then a length and its right side.
ghost use Rattle.std.specs.Prelude.{◌≡◌, ℕ, ◌<◌};
ghost use Rattle.system.specs.System.{rule};
ghost use Rattle.reader.specs.Book.{system_of};
ghost use Rattle.layout.specs.index.Accepted.{RulesAt};
ghost use Rattle.layout.specs.rules.Rules.{RuleStands};
ghost use Rattle.layout.specs.listed.Listed.{rule_of};

use crate::listed::Rule;
use reader::book::Book;
use system::words::wide;

// The rule whose first length stands at `at`.
pub fn rule_at<'a>(book: &Book<'a>, at: usize) -> Rule<'a>
    requires { RuleStands book.now.words.now at }
    ensures at { result.at ≡ at }
    ensures sides { (k : ℕ) → k < book.now.shape.rules → RulesAt book.now.words.now k at → rule_of result ≡ rule (system_of book.now.words.now) k }
{
    let words = book.words;
    let first = at + 1;
    let left = first + wide(words[at]);
    let second = left + 1;
    let end = second + wide(words[left]);
    Rule {
        at,
        lhs: &words[first..left],
        rhs: &words[second..end],
    }
}
