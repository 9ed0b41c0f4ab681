// A reduct written in the rows.
ghost use Rattle.std.specs.Prelude.{◌≡◌, ◌≤◌};
ghost use Rattle.system.specs.Limits.{max_word};
ghost use Rattle.system.specs.Signature.{signature_of};
ghost use Rattle.rows.specs.lengths.Written.{Written};
ghost use Rattle.sides.specs.sides.Sides.{stretches_in};
ghost use Rattle.sides.specs.writing.Reduct.{stretch_at, Writable, reduct};
ghost use Rattle.sides.specs.writing.Both.{Writing};

use crate::passes::{Pass, write};
use rows::gap::Gap;
use rows::lengths::{copy, push};

// Where the words of the redex stand in the area, or their lengths: those before word `end` from `base` on; that of word i from there on at `later`
// and i.
#[derive(Clone, Copy)]
pub struct Source {
    pub base: usize,
    pub end: usize,
    pub later: usize,
}

// Where word i of the redex stands in the area.
pub fn stretch_at(source: Source, i: usize) -> usize
    requires { (source.base ≤ max_word) × (source.later ≤ max_word) × (i ≤ max_word) }
    ensures { result ≡ stretch_at source i }
{
    if i < source.end {
        source.base + i
    } else {
        source.later + i
    }
}

// The words, and beside each its length.
#[derive(Clone, Copy)]
struct Both<'a> {
    book: &'a [u16],
    gap: Gap,
}

impl Pass for Both<'_> {
    ghost stands = { λ p t rest ws to. Writing (signature_of p.book.now) p.gap t rest ws to };

    fn symbol(&self, area: &mut [u16], to: usize, w: u16) -> usize {
        push(self.book, area, self.gap, to, w)
    }

    fn stretch(&self, area: &mut [u16], to: usize, from: usize, n: usize) -> usize {
        copy(area, to, from, n)
    }
}

// Writes the reduct right before the gap: the words of the side, each variable filled with its stretch. That of variable v starts at the word of
// the redex that word v of the bindings tells, and has as many words as word 16 + v tells.
pub fn write_reduct(
    book: &[u16],
    side: &[u16],
    area: &mut [u16],
    gap: Gap,
    bindings: &[u16],
    source: Source,
) -> usize
    requires { Writable (signature_of book.now) side.now area.old gap (stretches_in bindings.now) source }
    ensures { Written (signature_of book.now) area.old gap gap.front area.new result
        (reduct side.now (stretches_in bindings.now) source area.old) }
{
    write(&Both { book, gap }, side, area, gap.front, bindings, source)
}
