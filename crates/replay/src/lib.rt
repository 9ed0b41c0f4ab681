// The replay of a step record (02, F-3): a record from anyone is followed from the first term (01: the first cue) on, pair by pair, in memory
// that the caller lends. The operation here asks nothing of its caller; `scanned` is the inner interface for the layers above.
#![tactic(auto)]

ghost use Rattle.std.specs.Prelude.{◌≡◌};
ghost use Rattle.evaluation.specs.Expansion.{answer_and_buffers};
ghost use Rattle.replay.specs.Replaying.{as_answer, replaying, AcceptsExactly, IsMistold};
ghost use Rattle.replay.specs.retrace.Retraces.{halt_answer};

pub mod retrace;
pub mod scanned;

use crate::retrace::{Halt, Halted};
use reader::scan::scan_book;
use system::Answer;
use system::numbers::{Limit, Verdict};

// Three numbers, as those of an answer; but a record may have more pairs than 32 bits tell.
#[derive(Clone, Copy)]
pub struct Replayed {
    pub number: u32,
    pub place: usize,
    pub steps: usize,
}

// The same three numbers: an answer's, where its checks refuse a replay.
impl From<Answer> for Replayed {
    ghost from_gives = { λ a r. as_answer r ≡ a };

    fn from(a: Answer) -> Replayed {
        Replayed {
            number: a.number,
            place: a.place,
            steps: a.steps as usize,
        }
    }
}

// The place of 17 is the pair's number: as many as the steps before it. 12 has none.
impl From<Halted> for Replayed {
    ghost from_gives = { λ h r. as_answer r ≡ halt_answer h };

    fn from(h: Halted) -> Replayed {
        let (verdict, place) = match h.why {
            Halt::Untrue => (Verdict::Untrue, h.steps),
            Halt::Overlong => (Limit::Overlong.into(), 0),
        };
        Replayed {
            number: verdict.into(),
            place,
            steps: h.steps,
        }
    }
}

// Follows a record over a book from a term on.
//
// It checks the buffers (10), the book and the term as the evaluator does; none of these numbers touches a buffer. Then pair by pair: 17,
// with the pair's number from 0 as its place, where the pair is half, its index is no active position of the term then, or its rule is not
// the first that matches there; 12 where its step would leave more than 4,096 words. Both report the steps completed and leave the buffers as
// 11 does. No step limit and no levels count. On 0 the last term is handed back as the evaluator does, and the steps are the pairs.
pub fn replay(
    book: &[u16],
    term: &[u16],
    record: &[u16],
    out: &mut [u16],
    work: &mut [u16],
) -> Replayed
    ensures replayed { answer_and_buffers (as_answer result) out.new work.new
        ≡ replaying book.now term.now «record».now out.old work.old }
    ensures exact { AcceptsExactly book.now term.now «record».now out.old work.old
        (answer_and_buffers (as_answer result) out.new work.new) }
    ensures mistold { IsMistold book.now term.now «record».now
        (answer_and_buffers (as_answer result) out.new work.new) }
{
    scanned::replay_scanned(&scan_book(book), term, record, out, work)
}
