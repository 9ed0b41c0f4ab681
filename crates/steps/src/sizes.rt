// How long the term would be after a step, without the rewrite: whether 12 would stop a step is known before it is taken.
ghost use Rattle.std.specs.Prelude.{◌≡◌, length};
ghost use Rattle.std.proofs.Math.Option.{some};
ghost use Rattle.reader.specs.Book.{system_of};
ghost use Rattle.matching.specs.Matching.{Contraction, contraction};
ghost use Rattle.steps.specs.steps.Stepped.{subterm_here, Steppable, stepped};

use crate::steps::Based;
use layout::index::Index;
use machine::advance::{FRAME, State};
use redexes::search::Redex;
use rows::gap::{length_at, words};
use sides::sides::reduct_length;
use system::limits::LEVELS;

// The words of the term, less those of the subterm of the innermost level, and those of the reduct: of a listed rule its right side's with the
// variables' terms in their places, of a built-in one the word that it puts there.
pub fn size_after(index: &Index<'_>, area: &[u16], frame: &[u16], from: Based, m: Redex) -> usize
    requires { Steppable index.now.book.words.now area.now frame.now from.state from.way m }
    ensures { (x : Contraction) →
        contraction (system_of index.now.book.words.now) (subterm_here area.now frame.now from.state) ≡ some x →
        result ≡ length (stepped (system_of index.now.book.words.now) area.now frame.now from.state x) }
{
    let State { gap, level } = from.state;
    let at = usize::from(frame[level]);
    let width = length_at(area, gap, at);
    let rest = words(gap) - width;
    match m {
        Redex::BuiltIn { .. } => rest + 1,
        Redex::Listed { number } => {
            let rule = index.rule(number);
            let size = reduct_length(rule.rhs, &frame[LEVELS..FRAME]);
            rest + size
        }
    }
}
