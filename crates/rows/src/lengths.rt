// The lengths beside the words: read, and written from the end of the term to its front, so that those of a symbol's arguments stand there
// already.
ghost use Rattle.std.specs.Prelude.{◌≡◌, ◌+◌, ◌≤◌, ◌<◌, [], ◌∷◌, length, drop};
ghost use Rattle.buffers.specs.moves.Parts.{part};
ghost use Rattle.system.specs.Limits.{term_words};
ghost use Rattle.system.specs.Signature.{Signature, span};
ghost use Rattle.system.specs.Signature.{signature_of};
ghost use Rattle.rows.specs.declared.gap.Gap.{Gap};
ghost use Rattle.rows.specs.Rows.{counts_at, term_in, Gapped};
ghost use Rattle.rows.specs.gap.Gaps.{words_in, behind};
ghost use Rattle.rows.specs.Measured.{Measured};
ghost use Rattle.rows.specs.lengths.Later.{MeasuredFrom, Onward};
ghost use Rattle.rows.specs.lengths.Lengthened.{Lengthened};
ghost use Rattle.rows.specs.lengths.Written.{Written, Copyable, Laid};

use crate::gap::{Gap, length_at, words};
use buffers::move_words;
use system::limits::TERM_WORDS;
use system::words::arity;

// Where the third row starts.
pub const COUNTS: usize = 2 * TERM_WORDS;

// Where k subterms end of which the first starts at `from`: one read for each.
pub fn hop(area: &[u16], gap: Gap, from: usize, k: usize) -> usize
    requires { Gapped area.now gap × (from ≤ words_in gap) }
    ensures { (g : Signature) → MeasuredFrom g area.now gap from →
        result ≡ from + span g (drop from (term_in area.now gap)) k }
{
    let n = words(gap);
    let mut at = from;
    for _ in (0..k).rev() {
        if n <= at {
            break;
        }
        at += length_at(area, gap, at);
    }
    at
}

// Puts a word before those from `to` on, which stand before the gap and behind it, and beside it its length: its own word and its arguments', which
// stand there.
pub fn push(book: &[u16], area: &mut [u16], gap: Gap, to: usize, w: u16) -> usize
    requires { Onward (signature_of book.now) area.old gap to × (0 < to) }
    ensures { Written (signature_of book.now) area.old gap to area.new result (w ∷ []) }
{
    let at = to - 1;
    let end = hop(area, gap, to, arity(book, w));
    area[at] = w;
    area[TERM_WORDS + at] = (end - at) as u16;
    at
}

// Puts its length beside the word before those from `back` on, which stands there.
pub fn push_length(book: &[u16], area: &mut [u16], back: usize) -> usize
    requires { Measured (signature_of book.now) area.old (behind back) × (0 < back) }
    ensures { (result + 1 ≡ back) × Lengthened (signature_of book.now) area.old back area.new result }
{
    let at = back - 1;
    let length = hop(area, Gap { front: 0, back }, 0, arity(book, area[at])) + 1;
    area[TERM_WORDS + at] = length as u16;
    at
}

// Copies n words of the first row, and the lengths beside them, before those from `to` on.
pub fn copy(area: &mut [u16], to: usize, from: usize, n: usize) -> usize
    requires { (counts_at ≤ length area.old) × (to ≤ term_words) × (n ≤ to) × (from + n ≤ term_words) }
    ensures { (g : Signature) (gap : Gap) → Copyable g area.old gap to from n →
        Written g area.old gap to area.new result (part from n area.old) }
{
    let at = to - n;
    move_words(area, from, at, n);
    move_words(area, TERM_WORDS + from, TERM_WORDS + at, n);
    at
}

// The first pass: writes a term at the end of its row, and its lengths, and tells where it starts. All words of the area may change.
pub fn lay(book: &[u16], area: &mut [u16], term: &[u16]) -> usize
    requires { (length term.now ≤ term_words) × (counts_at + term_words ≤ length area.old) }
    ensures { Laid (signature_of book.now) term.now (length area.old) area.new (behind result) }
{
    let gap = Gap {
        front: TERM_WORDS,
        back: TERM_WORDS,
    };
    let mut at = TERM_WORDS;
    for w in term.iter().rev() {
        at = push(book, area, gap, at, *w);
    }
    at
}
