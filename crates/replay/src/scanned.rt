// The replay over a book that was scanned: its checks, the pairs followed in the work buffer, and what is handed back.
ghost use Rattle.std.specs.Prelude.{◌≡◌};
ghost use Rattle.evaluation.specs.Expansion.{answer_and_buffers};
ghost use Rattle.replay.specs.Replaying.{as_answer, replaying};

use crate::Replayed;
use crate::retrace::retrace;
use buffers::clear;
use evaluation::scanned::{check_call, hand_back};
use reader::scan::Scan;
use rows::gap::words;
use system::limits::AREA_WORDS;
use system::numbers::Verdict;

// What `replay` does, over a book that was scanned.
pub fn replay_scanned(
    scan: &Scan<'_>,
    term: &[u16],
    record: &[u16],
    out: &mut [u16],
    work: &mut [u16],
) -> Replayed
    ensures { answer_and_buffers (as_answer result) out.new work.new
        ≡ replaying scan.now.words.now term.now «record».now out.old work.old }
{
    let book = match check_call(scan, term, out.len(), work.len()) {
        Ok(book) => book,
        Err(refused) => return refused.into(),
    };
    match retrace(&book, term, record, &mut work[0..AREA_WORDS]) {
        Ok(e) => {
            hand_back(out, work, e.gap);
            Replayed {
                number: Verdict::Taken.into(),
                place: words(e.gap),
                steps: e.steps,
            }
        }
        Err(halted) => {
            clear(work, 0, AREA_WORDS);
            halted.into()
        }
    }
}
