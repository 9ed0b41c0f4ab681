// The machine in an area of lent words: from a state to just before its next rewrite, without recursion.
ghost use Rattle.std.specs.Prelude.{◌≡◌};
ghost use Rattle.reader.specs.Book.{system_of};
ghost use Rattle.rows.specs.Measured.{Measured};
ghost use Rattle.machine.specs.advance.Area.{base_of, Tracks};
ghost use Rattle.machine.specs.advance.Transition.{since_at, Performed};
ghost use Rattle.machine.specs.advance.Arrivals.{Advances};

use layout::entries::Entry;
use layout::index::Index;
use redexes::search::{BINDINGS, Redex, Spot, first_redex};
use rows::gap::{Gap, word_at};
use rows::lengths::{COUNTS, hop};
use system::limits::LEVELS;

// How many levels stand around the deepest one.
const DEEPEST: usize = LEVELS - 1;

// The words of a call's frame: the positions of the open levels, outermost first, and behind them the bindings of the match that was found last.
pub const FRAME: usize = LEVELS + BINDINGS;

// The state that an area holds, but for its words: where the gap in its rows is, and how many levels stand around the innermost one.
#[derive(Clone, Copy)]
pub struct State {
    pub gap: Gap,
    pub level: usize,
}

// Where the machine came to: its end, an argument that would be opened from level 64, or a rewrite, by the rule that matches.
#[derive(Clone, Copy)]
pub enum Stop {
    Final,
    Deep,
    Ready(Redex),
}

// Where it came to, and how many levels stand around the innermost one there.
#[derive(Clone, Copy)]
pub struct Advanced {
    pub stop: Stop,
    pub level: usize,
}

// What a transition came upon: the end of the innermost level's strategy, and the level was left; an entry that is repeated; entry 0: the
// rules are to be tried; an argument, which was opened; or an argument that would be too deep. That is one way on of five, each told apart in the
// one match that reads it, so a Result with it for an error would be no plainer.
#[derive(Clone, Copy)]
enum Event {
    End,
    Repeated,
    Rules,
    Argument,
    TooDeep,
}

// The innermost level of a state, and how many of its entries were begun before the present run of transitions.
#[derive(Clone, Copy)]
struct Innermost {
    gap: Gap,
    level: usize,
    since: usize,
}

// A level above `floor` was opened in this run of transitions, so none of its entries was begun before it.
fn at_level(gap: Gap, level: usize, floor: usize, since: usize) -> Innermost
    ensures { result ≡ record { gap = gap; level = level; since = since_at floor since level } }
{
    Innermost {
        gap,
        level,
        since: if floor < level { 0 } else { since },
    }
}

// Takes the next entry of the innermost level's strategy, and counts it as begun. Nothing is changed where it would be too deep.
// (measured) is 02, F-5: the lengths beside the words are "true after every step and every opened argument".
fn take_transition(index: &Index<'_>, area: &mut [u16], frame: &mut [u16], at: Innermost) -> Event
    requires { Tracks (system_of index.now.book.words.now) area.old frame.old at.gap (base_of frame.old) at.level }
    ensures performed { Performed (system_of index.now.book.words.now) at (base_of frame.old) area.old frame.old result
        area.new frame.new }
    ensures measured { Measured (system_of index.now.book.words.now).arities area.new at.gap }
{
    let Innermost { gap, level, since } = at;
    let p = usize::from(frame[level]);
    let c = area[COUNTS + level];
    let begun = c + 1;
    let w = word_at(area, gap, p);
    match index.entry_of(w, since, usize::from(c)) {
        Entry::End => {
            return Event::End;
        }
        Entry::Repeated => {
            area[COUNTS + level] = begun;
            return Event::Repeated;
        }
        Entry::Rules => {
            area[COUNTS + level] = begun;
            return Event::Rules;
        }
        Entry::Argument(i) => {
            if DEEPEST <= level {
                return Event::TooDeep;
            }
            let q = hop(area, gap, p + 1, i);
            area[COUNTS + level] = begun;
            area[COUNTS + level + 1] = 0;
            frame[level + 1] = q as u16;
            return Event::Argument;
        }
    }
}

// Goes on without rewriting, in the subterm at the base, which is the frame's first word: to the end, to just before the next rewrite, or to where
// an argument would be opened from level 64.
//
// The term stays as it is, so an entry that was followed once in this run of transitions is passed over when it is repeated: `floor` is the
// innermost level that was open before and has not been left, and `since` how many of its entries were begun before.
pub fn advance(index: &Index<'_>, area: &mut [u16], frame: &mut [u16], state: State) -> Advanced
    requires { Tracks (system_of index.now.book.words.now) area.old frame.old state.gap (base_of frame.old) state.level }
    ensures advanced { Advances (system_of index.now.book.words.now) state (base_of frame.old) area.old result
        area.new frame.new }
    ensures measured { Measured (system_of index.now.book.words.now).arities area.new state.gap }
{
    let State { gap, mut level } = state;
    let mut floor = level;
    let mut since = usize::from(area[COUNTS + level]);
    loop {
        let at = at_level(gap, level, floor, since);
        match take_transition(index, area, frame, at) {
            Event::Repeated => {}
            Event::Rules => {
                let at = usize::from(frame[level]);
                let spot = Spot { gap, at };
                let found = first_redex(index, area, spot, &mut frame[LEVELS..]);
                if let Some(redex) = found {
                    return Advanced {
                        stop: Stop::Ready(redex),
                        level,
                    };
                }
            }
            Event::Argument => level += 1,
            Event::End => {
                if level == 0 {
                    return Advanced {
                        stop: Stop::Final,
                        level,
                    };
                }
                level -= 1;
                if level < floor {
                    floor = level;
                    since = usize::from(area[COUNTS + level]);
                }
            }
            Event::TooDeep => {
                return Advanced {
                    stop: Stop::Deep,
                    level,
                };
            }
        }
    }
}
