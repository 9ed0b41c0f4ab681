// A step of the machine: a rewrite at the innermost level, and the lengths on the way to it made true again.
ghost use Rattle.std.specs.Prelude.{◌≡◌, ◌+◌, ◌-◌, ◌≤◌, ◌<◌, length, get_or, set};
ghost use Rattle.system.specs.Limits.{area_words, max_word, term_words};
ghost use Rattle.reader.specs.Book.{system_of};
ghost use Rattle.rows.specs.Measured.{Measured};
ghost use Rattle.steps.specs.steps.Raised.{Raisable, Raised, way_in};
ghost use Rattle.steps.specs.steps.Stepped.{Steppable, Steps};

use layout::index::Index;
use machine::advance::{FRAME, State};
use redexes::search::Redex;
use reducts::putting::Reduced;
use rewrites::rewrites::{Site, rewrite};
use rows::gap::{length_at, words};
use rows::lengths::COUNTS;
use system::limits::{LEVELS, TERM_WORDS};

// The length of the subterm at word q of the term: `width` less and `size` more. A replay raises those on its way by it too.
pub fn raise_at(area: &mut [u16], q: u16, width: usize, size: usize)
    requires { (term_words + q < length area.old) × (width ≤ get_or area.old (term_words + q) 0)
        × (get_or area.old (term_words + q) 0 - width + size ≤ max_word) }
    ensures { area.new ≡ set area.old (term_words + q) (get_or area.old (term_words + q) 0 - width + size) }
{
    let at = TERM_WORDS + usize::from(q);
    area[at] = (usize::from(area[at]) - width + size) as u16;
}

// The lengths of the symbols on the way.
fn raise(area: &mut [u16], way: &[u16], width: usize, size: usize)
    requires { Raisable area.old way.now width size }
    ensures { Raised area.old way.now width size area.new }
{
    for &q in way {
        raise_at(area, q, width, size);
    }
}

// The same for the n symbols on the way to the base, which is kept at the end of the third row: the root in its last word. It is read by the
// index, since the area that is written holds it.
fn raise_way(area: &mut [u16], n: usize, width: usize, size: usize)
    requires { (length area.old ≡ area_words) × (n ≤ term_words) × Raisable area.old (way_in area.old n) width size }
    ensures { Raised area.old (way_in area.old n) width size area.new }
{
    for k in 0..n {
        let q = area[COUNTS + (TERM_WORDS - 1 - k)];
        raise_at(area, q, width, size);
    }
}

// A state, and how many symbols are on the way to its base.
#[derive(Clone, Copy)]
pub struct Based {
    pub state: State,
    pub way: usize,
}

// Rewrites the subterm of the innermost level by the match that was found there, and starts that level anew.
// (measured) is 02, F-5: the lengths beside the words are "true after every step".
pub fn step(index: &Index<'_>, area: &mut [u16], frame: &[u16], from: Based, m: Redex) -> Reduced
    requires { Steppable index.now.book.words.now area.old frame.now from.state from.way m }
    ensures stepped { Steps index.now.book.words.now area.old frame.now from.state result area.new }
    ensures measured { Measured (system_of index.now.book.words.now).arities area.new result.gap }
{
    let State { gap, level } = from.state;
    let at = usize::from(frame[level]);
    let width = length_at(area, gap, at);
    let site = Site {
        gap,
        level,
        at,
        width,
    };
    let r = rewrite(index, area, site, m, &frame[LEVELS..FRAME]);
    if r.long {
        return r;
    }
    let size = words(r.gap) + width - words(gap);
    raise_way(area, from.way, width, size);
    raise(area, &frame[..level], width, size);
    area[COUNTS + level] = 0;
    r
}
