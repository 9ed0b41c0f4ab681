// What the libraries answer, as C sees it.
ghost use Rattle.std.specs.Prelude.{◌≡◌};
ghost use Rattle.cue.specs.Exports.{answer_for, shape_for, part_for, match_for};

use crate::{CueAnswer, CueMatch, CuePart, CueShape};
use matching::{FirstRule, Match};
use reader::{ArgumentSpan, Shape};
use system::Answer;

impl From<Answer> for CueAnswer {
    ghost from_gives = { λ a c. c ≡ answer_for a };

    fn from(a: Answer) -> CueAnswer {
        CueAnswer {
            number: a.number,
            place: a.place,
            steps: a.steps,
        }
    }
}

impl From<Shape> for CueShape {
    ghost from_gives = { λ s c. c ≡ shape_for s };

    fn from(s: Shape) -> CueShape {
        CueShape {
            symbols: s.symbols,
            strategies: s.strategies,
            rules: s.rules,
            first_rule: s.first_rule,
        }
    }
}

impl From<ArgumentSpan> for CuePart {
    ghost from_gives = { λ s c. c ≡ part_for s };

    fn from(s: ArgumentSpan) -> CuePart {
        CuePart {
            start: s.start,
            length: s.length,
        }
    }
}

impl From<Match> for CueMatch {
    ghost from_gives = { λ m c. c ≡ match_for m };

    fn from(m: Match) -> CueMatch {
        let starts = m.starts;
        let lengths = m.lengths;
        let mut told = CueMatch {
            found: 0,
            number: 0,
            rhs: 0,
            size: 0,
            starts,
            lengths,
            word: 0,
        };
        match m.rule {
            None => {}
            Some(FirstRule::First { number, rhs, size }) => {
                told.found = 1;
                told.number = number;
                told.rhs = rhs;
                told.size = size;
            }
            Some(FirstRule::Computed { number, word }) => {
                told.found = 1;
                told.number = number;
                told.word = word;
            }
        }
        told
    }
}
