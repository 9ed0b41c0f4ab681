// One rewrite in the rows. The words with which both sides of the rule end stay where they are.
ghost use Rattle.rewrites.specs.rewrites.Rewritten.{subterm_of, Reducible, Rewrites};

use layout::index::Index;
use redexes::search::Redex;
use reducts::putting::{Reduced, Subterm, put_reduct, put_word};
use rows::gap::Gap;
use sides::sides::{reduct_length, shared_end};

// A subterm of the term in the rows: where the gap is, how many levels stand around the subterm, its position, and how many words it has.
#[derive(Clone, Copy)]
pub struct Site {
    pub gap: Gap,
    pub level: usize,
    pub at: usize,
    pub width: usize,
}

// Puts the reduct of the match m, with these bindings, in the place of the subterm: the right side of a listed rule stands in the book, and what
// it ends with as the left side does stays where it is; the right side of a built-in rule is the word that it puts there.
pub fn rewrite(
    index: &Index<'_>,
    area: &mut [u16],
    site: Site,
    m: Redex,
    bindings: &[u16],
) -> Reduced
    requires { Reducible index.now.book.words.now area.old site.gap (subterm_of site) m bindings.now }
    ensures { Rewrites index.now.book.words.now area.old site.gap (subterm_of site) result area.new }
{
    let Site {
        gap,
        level,
        at,
        width,
    } = site;
    match m {
        Redex::BuiltIn { word, .. } => put_word(area, gap, Subterm { level, at, width }, word),
        Redex::Listed { number } => {
            let rule = index.rule(number);
            let mid = rule.rhs.len() - shared_end(rule.lhs, rule.rhs);
            let width = width - reduct_length(&rule.rhs[mid..], bindings);
            let front = Subterm { level, at, width };
            put_reduct(
                index.book.words,
                &rule.rhs[..mid],
                area,
                gap,
                front,
                bindings,
            )
        }
    }
}
