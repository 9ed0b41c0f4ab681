// The gap in both rows: how the term is read around it, and how it is moved. A word's index is that in the term, wherever the gap is.
ghost use Rattle.std.specs.Prelude.{◌≡◌, ◌≤◌, ◌<◌, get_or};
ghost use Rattle.system.specs.Limits.{max_word, term_words};
ghost use Rattle.rows.specs.Rows.{Lies, Gapped, term_in, lengths_in};
ghost use Rattle.rows.specs.gap.Gaps.{words_in, slot_of, Moved};

use buffers::move_words;
use system::limits::TERM_WORDS;
use system::words::wide;

// The term's words stand before `front`, and from `back` on.
#[derive(Clone, Copy)]
pub struct Gap {
    pub front: usize,
    pub back: usize,
}

// How many words the term has.
pub fn words(gap: Gap) -> usize
    requires { Lies gap }
    ensures { result ≡ words_in gap }
{
    gap.front + (TERM_WORDS - gap.back)
}

// Where in a row the word i of the term stands.
pub fn slot(gap: Gap, i: usize) -> usize
    requires { Lies gap × (i < words_in gap) }
    ensures { (result ≡ slot_of gap i) × (result < term_words) }
{
    if i < gap.front {
        i
    } else {
        i + (gap.back - gap.front)
    }
}

// Word i of the term.
pub fn word_at(area: &[u16], gap: Gap, i: usize) -> u16
    requires { Gapped area.now gap × (i < words_in gap) }
    ensures { result ≡ get_or (term_in area.now gap) i 0 }
{
    area[slot(gap, i)]
}

// The length that stands beside it.
pub fn length_at(area: &[u16], gap: Gap, i: usize) -> usize
    requires { Gapped area.now gap × (i < words_in gap) }
    ensures { (result ≡ get_or (lengths_in area.now gap) i 0) × (result ≤ max_word) }
{
    wide(area[TERM_WORDS + slot(gap, i)])
}

// Moves the gap back to word `to`: the words between go behind it, in both rows.
fn move_back(area: &mut [u16], gap: Gap, to: usize) -> Gap
    requires { Gapped area.old gap × (to ≤ gap.front) }
    ensures { Moved area.old gap to result area.new }
{
    let n = gap.front - to;
    let back = gap.back - n;
    move_words(area, to, back, n);
    move_words(area, TERM_WORDS + to, TERM_WORDS + back, n);
    Gap { front: to, back }
}

// Moves the gap on to word `to`: the words between go before it, in both rows.
fn move_on(area: &mut [u16], gap: Gap, to: usize) -> Gap
    requires { Gapped area.old gap × (gap.front ≤ to) × (to ≤ words_in gap) }
    ensures { Moved area.old gap to result area.new }
{
    let n = to - gap.front;
    move_words(area, gap.back, gap.front, n);
    move_words(area, TERM_WORDS + gap.back, TERM_WORDS + gap.front, n);
    Gap {
        front: to,
        back: gap.back + n,
    }
}

// Brings the gap to word `to` of the term, which stays as it is.
pub fn move_gap(area: &mut [u16], gap: Gap, to: usize) -> Gap
    requires { Gapped area.old gap × (to ≤ words_in gap) }
    ensures { Moved area.old gap to result area.new }
{
    if to < gap.front {
        move_back(area, gap, to)
    } else {
        move_on(area, gap, to)
    }
}
