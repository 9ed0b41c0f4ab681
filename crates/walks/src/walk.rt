// Finds whether a position of the term is active (02, F-3: "its index an active place then"), by a walk from the position of the last step.
//
// The finger is at that position. In the place of the machine's counts the area holds the way to it: the positions of the symbols from the
// root on, outermost first. So a position near the last step's costs little; and where a subterm ends is one read: no span of the term is counted.
ghost use Rattle.std.specs.Prelude.{◌≡◌, ◌<◌};
ghost use Rattle.reader.specs.Book.{system_of};
ghost use Rattle.system.specs.Signature.{Signature};
ghost use Rattle.system.specs.System.{System};
ghost use Rattle.system.specs.Terms.{WellFormed};
ghost use Rattle.rows.specs.Rows.{term_in, Gapped};
ghost use Rattle.rows.specs.gap.Gaps.{words_in};
ghost use Rattle.rows.specs.Measured.{Measured};
ghost use Rattle.walks.specs.walk.Descent.{within, Above, Held};
ghost use Rattle.walks.specs.walk.Way.{PointsIn, PointsForSome, Over, Found};

use layout::index::Index;
use reader::book::Book;
use rows::gap::{Gap, length_at, word_at, words};
use rows::lengths::COUNTS;
use system::words::{arity, wide};

// Where the gap of the rows is, how many positions stand on the way, and the position that it leads to.
#[derive(Clone, Copy)]
pub struct Finger {
    pub gap: Gap,
    pub level: usize,
    pub at: usize,
}

// An argument of a symbol: how many others stand before it, and where it starts.
#[derive(Clone, Copy)]
struct Argument {
    number: usize,
    start: usize,
}

// Tells whether the position q lies in the subterm at `at`, by one read.
fn inside(area: &[u16], gap: Gap, at: usize, q: usize) -> bool
    requires { Gapped area.now gap × (at < words_in gap) }
    ensures { (g : Signature) → Measured g area.now gap → result ≡ within g (term_in area.now gap) at q }
{
    at <= q && q - at < length_at(area, gap, at)
}

// Finds the argument of the symbol at `at` that holds the position q, by at most as many reads as it has arguments. If none of the others does, it is
// the last one, which needs no read.
fn holder(book: &Book<'_>, area: &[u16], gap: Gap, at: usize, q: usize) -> Argument
    requires { Measured (system_of book.now.words.now).arities area.now gap
        × Above (system_of book.now.words.now) (term_in area.now gap) at q × (at < q) }
    ensures { Held (system_of book.now.words.now) (term_in area.now gap) at q result }
{
    let last = arity(book.words, word_at(area, gap, at)) - 1;
    let mut start = at + 1;
    for number in 0..last {
        let width = length_at(area, gap, start);
        if q - start < width {
            return Argument { number, start };
        }
        start += width;
    }
    Argument {
        number: last,
        start,
    }
}

// Goes up the way to the first position whose subterm holds q. The root's does.
fn climb(area: &[u16], f: Finger, q: usize) -> Finger
    requires { PointsForSome area.now f × (q < words_in f.gap) }
    ensures { (s : System) → WellFormed s → PointsIn s area.now f →
        Over s (term_in area.now f.gap) area.now result q }
{
    let mut at = f.at;
    for level in (0..f.level).rev() {
        if inside(area, f.gap, at, q) {
            return Finger {
                level: level + 1,
                at,
                ..f
            };
        }
        at = wide(area[COUNTS + level]);
    }
    Finger { level: 0, at, ..f }
}

// Goes down to q, as long as the argument that holds q stands in the strategy, and notes the way. Where one does not, the walk ends at its symbol.
fn descend(index: &Index<'_>, area: &mut [u16], f: Finger, q: usize) -> Result<Finger, Finger>
    requires { Over (system_of index.now.book.words.now) (term_in area.old f.gap) area.old f q }
    ensures { Found (system_of index.now.book.words.now) (term_in area.old f.gap) area.new q result }
{
    let mut f = f;
    // The cursor goes on to where an argument starts, which is read: no range and no iterator counts it.
    while f.at < q {
        let a = holder(&index.book, area, f.gap, f.at, q);
        if !index.stands_in(word_at(area, f.gap, f.at), a.number + 1) {
            return Err(f);
        }
        area[COUNTS + f.level] = f.at as u16;
        f.level += 1;
        f.at = a.start;
    }
    Ok(f)
}

// Brings the finger to the position q if that is active, and to another position if it is not: `Err` has the finger there, where the walk ended, and
// one may go on from it. Any word of a record may be asked for.
pub fn find(index: &Index<'_>, area: &mut [u16], f: Finger, q: usize) -> Result<Finger, Finger>
    requires { PointsIn (system_of index.now.book.words.now) area.old f }
    ensures { Found (system_of index.now.book.words.now) (term_in area.old f.gap) area.new q result }
{
    if words(f.gap) <= q {
        return Err(f);
    }
    let over = climb(area, f, q);
    descend(index, area, over, q)
}
