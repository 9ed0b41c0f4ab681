// Following the pairs of a record, one after the other, in an area of lent words.
ghost use Rattle.std.specs.Prelude.{◌≡◌, ◌≤◌, length, IfOk};
ghost use Rattle.reader.specs.Book.{system_of};
ghost use Rattle.system.specs.Limits.{area_words, term_words};
ghost use Rattle.rows.specs.Measured.{Measured};
ghost use Rattle.rows.specs.Rows.{term_in};
ghost use Rattle.steps.specs.steps.Raised.{Raisable, Raised};
ghost use Rattle.runs.specs.run.RunResult.{Runnable};
ghost use Rattle.rewriting.specs.Evaluation.{start};
ghost use Rattle.replay.specs.Replay.{replay};
ghost use Rattle.walks.specs.walk.Way.{way_in, PointsIn};
ghost use Rattle.replay.specs.retrace.Retraces.{Follows, Retraces};

use layout::index::{Index, Places, build_index};
use reader::book::Book;
use redexes::search::{BINDINGS, Spot, first_redex};
use rewrites::rewrites::{Site, rewrite};
use rows::gap::{Gap, length_at, words};
use rows::lengths::{COUNTS, lay};
use steps::steps::raise_at;
use system::words::wide;
use walks::walk::{Finger, find};

// A pair of a record: the index of a step in the whole term before it, and the number of its rule.
#[derive(Clone, Copy)]
pub struct Pair {
    pub at: usize,
    pub number: usize,
}

// Why a replay stops at a pair: it tells of no step that is due (17), or its step would leave too many words (12).
#[derive(Clone, Copy)]
pub enum Halt {
    Untrue,
    Overlong,
}

// A replay that was stopped, after so many steps.
#[derive(Clone, Copy)]
pub struct Halted {
    pub why: Halt,
    pub steps: usize,
}

// A replay that came to the record's end: where the gap of the rows is, and the steps taken.
#[derive(Clone, Copy)]
pub struct Retraced {
    pub gap: Gap,
    pub steps: usize,
}

// The lengths of the symbols on the way, which stands in the third row: each is `width` less and `size` more. It is read by the index, since the
// area that is written holds it.
fn raise_way(area: &mut [u16], level: usize, width: usize, size: usize)
    requires { (length area.old ≡ area_words) × (level ≤ term_words) × Raisable area.old (way_in area.old level) width size }
    ensures { Raised area.old (way_in area.old level) width size area.new }
{
    for j in 0..level {
        let q = area[COUNTS + j];
        raise_at(area, q, width, size);
    }
}

// Takes the step that a pair tells of, if its index is an active position and its rule the first that matches there.
// (measured) is 02, F-5: the lengths beside the words are "true after every step".
fn follow(index: &Index<'_>, area: &mut [u16], from: Finger, pair: Pair) -> Result<Finger, Halt>
    requires { PointsIn (system_of index.now.book.words.now) area.old from }
    ensures followed { Follows (system_of index.now.book.words.now) (term_in area.old from.gap) pair area.new result }
    ensures measured { IfOk result (λ f. Measured (system_of index.now.book.words.now).arities area.new f.gap) }
{
    let Ok(f) = find(index, area, from, pair.at) else {
        return Err(Halt::Untrue);
    };
    let mut bindings = [0u16; BINDINGS];
    let spot = Spot {
        gap: f.gap,
        at: f.at,
    };
    let Some(m) = first_redex(index, area, spot, &mut bindings) else {
        return Err(Halt::Untrue);
    };
    if m.number() != pair.number {
        return Err(Halt::Untrue);
    }
    let width = length_at(area, f.gap, f.at);
    let site = Site {
        gap: f.gap,
        level: f.level,
        at: f.at,
        width,
    };
    let r = rewrite(index, area, site, m, &bindings);
    if r.long {
        return Err(Halt::Overlong);
    }
    raise_way(area, f.level, width, words(r.gap) + width - words(f.gap));
    Ok(Finger { gap: r.gap, ..f })
}

// Follows a record in an area of 12,288 words. What stands in the area then does not matter, but for the rows' words around the gap.
pub fn retrace(
    book: &Book<'_>,
    term: &[u16],
    record: &[u16],
    area: &mut [u16],
) -> Result<Retraced, Halted>
    requires { Runnable book.now.words.now term.now area.old }
    ensures { Retraces area.new (replay (system_of book.now.words.now) «record».now (start term.now)) result }
{
    let back = lay(book.words, area, term);
    let book = *book; // a copy, which lives as long as the words of its index
    let mut places = Places::EMPTY;
    let index = build_index(&book, &mut places);
    let mut f = Finger {
        gap: Gap { front: 0, back },
        level: 0,
        at: 0,
    };
    for (steps, words) in record.chunks(2).enumerate() {
        let &[at, number] = words else {
            return Err(Halted {
                why: Halt::Untrue,
                steps,
            });
        };
        let pair = Pair {
            at: wide(at),
            number: wide(number),
        };
        match follow(&index, area, f, pair) {
            Ok(next) => f = next,
            Err(why) => return Err(Halted { why, steps }),
        }
    }
    Ok(Retraced {
        gap: f.gap,
        steps: record.len() / 2,
    })
}
