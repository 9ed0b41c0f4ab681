// What the support desk uses, as C and other languages call it: the replay of a step record, and an expansion with its replay; `cue_replay_c`
// exports them under these names in an archive of its own, and include/cue.h declares them. In one archive the replay would be a second caller of
// search and rewrite, which are then compiled as calls and no longer copied into the expander's loop: it would lose a fifth to a third of its speed.
#![tactic(auto)]

ghost use Rattle.std.specs.Prelude.{◌≡◌, length};
ghost use Rattle.rewriting.specs.Evaluation.{recorded};
ghost use Rattle.evaluation.specs.Expansion.{answer_and_buffers, expansion, record_after};
ghost use Rattle.replay.specs.Replaying.{replaying, AcceptsExactly, IsMistold};
ghost use Rattle.demands.specs.Demand3.{IsDone, IsStopped};
ghost use Rattle.demands.specs.Retracing.{Reported, retracing, IsRetraced};
ghost use Rattle.cue.specs.Exports.{as_answer};
ghost use Rattle.cue_replay.specs.Exports.{replayed_answer};

use cue::CueAnswer;
use replay::Replayed;

// The three numbers of a replay: a record may have more pairs than 32 bits tell.
#[repr(C)]
#[derive(Clone, Copy)]
pub struct CueReplayed {
    pub number: u32,
    pub place: usize,
    pub steps: usize,
}

// The answers of an expansion with a record, and of its replay.
#[repr(C)]
#[derive(Clone, Copy)]
pub struct CueRetraced {
    pub answer: CueAnswer,
    pub replay: CueReplayed,
}

impl From<Replayed> for CueReplayed {
    ghost from_gives = { λ e c. c ≡ record { number = e.number; place = e.place; steps = e.steps } };

    fn from(e: Replayed) -> CueReplayed {
        CueReplayed {
            number: e.number,
            place: e.place,
            steps: e.steps,
        }
    }
}

// Follows a record over a book from a term on.
pub fn cue_replay(
    book: &[u16],
    term: &[u16],
    record: &[u16],
    out: &mut [u16],
    work: &mut [u16],
) -> CueReplayed
    ensures replayed { answer_and_buffers (replayed_answer result) out.new work.new
        ≡ replaying book.now term.now «record».now out.old work.old }
    ensures exact { AcceptsExactly book.now term.now «record».now out.old work.old
        (answer_and_buffers (replayed_answer result) out.new work.new) }
    ensures mistold { IsMistold book.now term.now «record».now
        (answer_and_buffers (replayed_answer result) out.new work.new) }
{
    replay::replay(book, term, record, out, work).into()
}

// Expands the term with a record, and follows the record, cut to its pairs, in a second pair of buffers; where nothing is handed back the
// answer's numbers stand for the replay's.
pub fn cue_expand_retraced(
    book: &[u16],
    term: &[u16],
    limit: u32,
    out: &mut [u16],
    work: &mut [u16],
    record: &mut [u16],
    again: &mut [u16],
    spare: &mut [u16],
) -> CueRetraced
    ensures expanded { answer_and_buffers (as_answer result.answer) out.new work.new
        ≡ expansion book.now term.now (recorded limit (length «record».old))
        out.old work.old }
    ensures told { «record».new ≡ record_after book.now term.now
        (recorded limit (length «record».old)) out.old work.old «record».old }
    ensures replayed { answer_and_buffers (replayed_answer result.replay) again.new spare.new
        ≡ retracing book.now term.now (as_answer result.answer) «record».new
        again.old spare.old }
    ensures done { IsDone book.now term.now (recorded limit (length «record».old))
        (answer_and_buffers (as_answer result.answer) out.new work.new) }
    ensures retraced { IsRetraced (answer_and_buffers (as_answer result.answer) out.new work.new) again.old
        spare.old (answer_and_buffers (replayed_answer result.replay) again.new spare.new) }
    ensures stopped { IsStopped book.now term.now (recorded limit (length «record».old))
        (answer_and_buffers (as_answer result.answer) out.new work.new) }
    ensures reported { Reported book.now term.now (recorded limit (length «record».old))
        «record».old «record».new (answer_and_buffers (as_answer result.answer) out.new work.new) }
{
    let c = demands::expand_retraced(book, term, limit, out, work, record, again, spare);
    CueRetraced {
        answer: c.answer.into(),
        replay: c.replay.into(),
    }
}
