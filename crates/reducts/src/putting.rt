// A reduct put in the place of words of the term.
ghost use Rattle.std.specs.Prelude.{◌+◌, ◌-◌, ◌≤◌, ◌<◌, ◌≡◌, true, [], ◌∷◌};
ghost use Rattle.system.specs.Limits.{term_words, variable};
ghost use Rattle.system.specs.Signature.{Signature, arity};
ghost use Rattle.system.specs.Signature.{signature_of};
ghost use Rattle.system.specs.System.{instance};
ghost use Rattle.rows.specs.Rows.{Lies, term_in};
ghost use Rattle.rows.specs.gap.Gaps.{even};
ghost use Rattle.rows.specs.lengths.Written.{Written};
ghost use Rattle.sides.specs.sides.Sides.{Stretches, stretches_in};
ghost use Rattle.reducts.specs.putting.Replaced.{filling, edge, place_for, Crowdable, lengths_aside, Puttable, Put};

use buffers::move_words;
use rows::gap::{Gap, move_gap};
use rows::lengths::COUNTS;
use sides::crowded::{write_lengths, write_words};
use sides::sides::reduct_length;
use sides::writing::{Source, write_reduct};
use system::limits::TERM_WORDS;

// Words of the term that are to be replaced: how many levels stand around them, the position of the first, and how many they are.
#[derive(Clone, Copy)]
pub struct Subterm {
    pub level: usize,
    pub at: usize,
    pub width: usize,
}

// What a rewrite came to: whether the term would have more than 4,096 words, and then it stands as it did; where the gap is now. That is told in
// both cases, so no Option and no Result would say more than the flag.
#[derive(Clone, Copy)]
pub struct Reduced {
    pub long: bool,
    pub gap: Gap,
}

// Writes the reduct where it has no room beside the words of u, which stand before the gap: row by row, with the words of u, and then their
// lengths, set aside behind the counts: the term has at least as many words before them as there are levels around.
fn put_crowded(
    book: &[u16],
    side: &[u16],
    area: &mut [u16],
    gap: Gap,
    u: Subterm,
    bindings: &[u16],
) -> usize
    requires { Crowdable (signature_of book.now) side.now area.old gap u (stretches_in bindings.now) }
    ensures { Written (signature_of book.now) (lengths_aside area.old u) (even gap.back) gap.back
        area.new result (instance (filling (term_in area.old gap) u (stretches_in bindings.now)) side.now) }
{
    let base = COUNTS + u.level;
    let later = u.at + (gap.back - gap.front);
    let words = Source {
        base,
        end: u.width,
        later,
    };
    let lengths = Source {
        later: TERM_WORDS + later,
        ..words
    };
    move_words(area, u.at, base, u.width);
    write_words(side, area, gap.back, bindings, words);
    move_words(area, TERM_WORDS + u.at, base, u.width);
    write_lengths(book, side, area, gap.back, bindings, lengths)
}

// Puts a word without arguments in the place of the words of u: the gap is brought behind them, and the first is written over.
pub fn put_word(area: &mut [u16], gap: Gap, u: Subterm, w: u16) -> Reduced
    requires { ((g : Signature) × (c : Stretches) × Puttable g (w ∷ []) area.old gap u c) × (w < variable) × (0 < u.width) }
    ensures { (g : Signature) (c : Stretches) → Puttable g (w ∷ []) area.old gap u c → arity g w ≡ 0 →
        Put g (w ∷ []) area.old gap u c result area.new }
{
    let g = move_gap(area, gap, u.at + u.width);
    area[u.at] = w;
    area[TERM_WORDS + u.at] = 1;
    Reduced {
        long: false,
        gap: Gap {
            front: u.at + 1,
            ..g
        },
    }
}

// Where a reduct is written: right before a gap, and from where the words of the redex are read; and the gap then.
#[derive(Clone, Copy)]
pub struct Place {
    pub gap: Gap,
    pub source: Source,
    pub left: Gap,
}

// Whether the gap is brought before the words of u, and not behind them: only where it has room for a reduct of k words, and there where few of
// these words, an eighth of them at most, stand before it. Then none or few are moved.
fn goes_before(gap: Gap, u: Subterm, k: usize) -> bool
    requires { Lies gap × (u.at + u.width ≤ term_words) }
    ensures { result ≡ true → k ≤ gap.back - gap.front }
{
    k <= gap.back - gap.front && 8 * gap.front <= 8 * u.at + u.width
}

// Where the gap is brought: to the first word of u, or behind the last.
fn edge(u: Subterm, before: bool) -> usize
    requires { u.at + u.width ≤ term_words }
    ensures { result ≡ edge u before }
{
    if before { u.at } else { u.at + u.width }
}

// Where a reduct of k words is written, the gap being at that edge of u, so that what follows the words of u stays where it is: before the gap, with
// all words of the redex behind it; or up to what follows, with the words of u before the gap.
fn place_for(gap: Gap, u: Subterm, k: usize, before: bool) -> Place
    requires { Lies gap × (u.at + u.width ≤ term_words) × (k ≤ gap.back - gap.front) }
    ensures { result ≡ place_for gap u k before }
{
    if before {
        let open = Gap {
            front: u.at + k,
            back: gap.back + u.width,
        };
        let source = Source {
            base: gap.back,
            end: u.width,
            later: gap.back,
        };
        return Place {
            gap: open,
            source,
            left: open,
        };
    }
    Place {
        gap: Gap {
            front: gap.back,
            back: gap.back,
        },
        source: Source {
            base: u.at,
            end: u.width,
            later: u.at + (gap.back - gap.front),
        },
        left: Gap {
            front: u.at,
            back: gap.back - k,
        },
    }
}

// Puts the reduct of a side, its variables filled with these stretches, in the place of the words of u. Where the term would be too long it
// stays as it is. Word v of the bindings is where the stretch of variable v starts, word 16 + v how many words it has.
pub fn put_reduct(
    book: &[u16],
    side: &[u16],
    area: &mut [u16],
    gap: Gap,
    u: Subterm,
    bindings: &[u16],
) -> Reduced
    requires { Puttable (signature_of book.now) side.now area.old gap u (stretches_in bindings.now) }
    ensures { Put (signature_of book.now) side.now area.old gap u (stretches_in bindings.now) result
        area.new }
{
    let k = reduct_length(side, bindings);
    let before = goes_before(gap, u, k);
    let g = move_gap(area, gap, edge(u, before));
    if g.back < u.at + k {
        return Reduced { long: true, gap: g };
    }
    if k <= g.back - g.front {
        let place = place_for(g, u, k, before);
        write_reduct(book, side, area, place.gap, bindings, place.source);
        return Reduced {
            long: false,
            gap: place.left,
        };
    }
    let back = put_crowded(book, side, area, g, u, bindings);
    Reduced {
        long: false,
        gap: Gap { front: u.at, back },
    }
}
