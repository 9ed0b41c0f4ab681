// A reduct written where it has no room beside the words of the redex: first the row of words, then the row of lengths, each read from where it was
// set aside.
ghost use Rattle.std.specs.Prelude.{◌≡◌, ◌+◌, ◌-◌, drop};
ghost use Rattle.buffers.specs.Words.{over};
ghost use Rattle.system.specs.Limits.{variables};
ghost use Rattle.system.specs.Signature.{signature_of};
ghost use Rattle.rows.specs.lengths.Lengthened.{Lengthened};
ghost use Rattle.matching.specs.rules.Searches.{reduct_length};
ghost use Rattle.sides.specs.sides.Sides.{stretches_in};
ghost use Rattle.sides.specs.writing.Reduct.{reduct};
ghost use Rattle.sides.specs.crowded.Passes.{Passable, Lengthable};
ghost use Rattle.sides.specs.crowded.Rows.{Wording, Lengthening};

use crate::passes::{Pass, write};
use crate::writing::Source;
use buffers::move_words;
use rows::lengths::push_length;
use system::limits::TERM_WORDS;

// The words, and no lengths.
struct Words;

impl Pass for Words {
    ghost stands = { λ _ t rest ws to. Wording t rest ws to };

    fn symbol(&self, area: &mut [u16], to: usize, w: u16) -> usize {
        let at = to - 1;
        area[at] = w;
        at
    }

    fn stretch(&self, area: &mut [u16], to: usize, from: usize, n: usize) -> usize {
        let at = to - n;
        move_words(area, from, at, n);
        at
    }
}

// The lengths beside words that stand there: a symbol's is told by those of its arguments, those of a stretch are copied.
#[derive(Clone, Copy)]
struct Lengths<'a> {
    book: &'a [u16],
}

impl Pass for Lengths<'_> {
    ghost stands = { λ p t rest ws to. Lengthening (signature_of p.book.now) t rest ws to };

    fn symbol(&self, area: &mut [u16], to: usize, _: u16) -> usize {
        push_length(self.book, area, to)
    }

    fn stretch(&self, area: &mut [u16], to: usize, from: usize, n: usize) -> usize {
        let at = to - n;
        move_words(area, from, TERM_WORDS + at, n);
        at
    }
}

// The first pass: writes the words of the reduct before those from `back` on, and no lengths.
pub fn write_words(side: &[u16], area: &mut [u16], back: usize, bindings: &[u16], source: Source)
    requires { Passable side.now area.old back back (stretches_in bindings.now) source }
    ensures { area.new ≡ over area.old (back - reduct_length (drop variables bindings.now) side.now)
        (reduct side.now (stretches_in bindings.now) source area.old) }
{
    write(&Words, side, area, back, bindings, source);
}

// The second pass: puts their lengths beside the words that the first has written, from the end to the front.
pub fn write_lengths(
    book: &[u16],
    side: &[u16],
    area: &mut [u16],
    back: usize,
    bindings: &[u16],
    source: Source,
) -> usize
    requires { Lengthable (signature_of book.now) side.now area.old back (stretches_in bindings.now) source }
    ensures { (result + reduct_length (drop variables bindings.now) side.now ≡ back)
        × Lengthened (signature_of book.now) area.old back area.new result }
{
    write(&Lengths { book }, side, area, back, bindings, source)
}
