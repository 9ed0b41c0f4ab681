// The evaluation over a book that was scanned: its checks, a run in the work buffer, and what is handed back.
ghost use Rattle.std.specs.Prelude.{◌≡◌, cond, ◌≤◌, length, IfOk};
ghost use Rattle.buffers.specs.Words.{over, zeros};
ghost use Rattle.reader.specs.Answers.{term_answer};
ghost use Rattle.system.specs.Limits.{area_words, term_words};
ghost use Rattle.rows.specs.Rows.{Lies, term_in};
ghost use Rattle.rewriting.specs.Evaluation.{unrecorded};
ghost use Rattle.evaluation.specs.Expansion.{answer_and_buffers, room, earlier, expansion, record_after};
ghost use Rattle.records.specs.recording.Kept.{limits_of};
ghost use Rattle.evaluation.specs.scanned.Checked.{Checked};

use reader::book::Book;
use reader::scan::Scan;
use records::recording::Bounds;
use rows::gap::{Gap, words};
use runs::run::run;
use system::Answer;
use system::limits::{AREA_WORDS, TERM_WORDS};
use system::numbers::Verdict;
use terms::checking::check_over;

// What `expand` does, over a book that was scanned.
pub fn expand_scanned(
    scan: &Scan<'_>,
    term: &[u16],
    limit: u32,
    out: &mut [u16],
    work: &mut [u16],
) -> Answer
    ensures { answer_and_buffers result out.new work.new
        ≡ expansion scan.now.words.now term.now (unrecorded limit) out.old work.old }
{
    let bounds = Bounds {
        limit,
        recorded: false,
    };
    let mut unused = [0u16; 1];
    expand_within(scan, term, bounds, out, work, &mut unused)
}

// What `expand` and `expand_recorded` do, over a book that was scanned. A record that is not lent stays as it is.
pub fn expand_within(
    scan: &Scan<'_>,
    term: &[u16],
    bounds: Bounds,
    out: &mut [u16],
    work: &mut [u16],
    record: &mut [u16],
) -> Answer
    ensures expanded { answer_and_buffers result out.new work.new
        ≡ expansion scan.now.words.now term.now (limits_of bounds (length «record».old))
        out.old work.old }
    ensures told { «record».new ≡ cond bounds.recorded (record_after scan.now.words.now term.now
        (limits_of bounds (length «record».old)) out.old work.old «record».old) «record».old }
{
    let book = match check_call(scan, term, out.len(), work.len()) {
        Ok(book) => book,
        Err(refused) => return refused,
    };
    let e = run(&book, term, bounds, &mut work[0..AREA_WORDS], record);
    let steps = e.steps;
    match e.outcome {
        Ok(gap) => {
            hand_back(out, work, gap);
            Answer {
                number: Verdict::Taken.into(),
                place: words(gap),
                steps,
            }
        }
        Err(limit) => {
            buffers::clear(work, 0, AREA_WORDS);
            Answer {
                number: Verdict::from(limit).into(),
                place: 0,
                steps,
            }
        }
    }
}

// The checks of a call, by how many words its buffers have: the buffers, then the book, then the term. The first that fails refuses the call; where
// none does, it is the book.
pub fn check_call<'a>(
    scan: &Scan<'a>,
    term: &[u16],
    out: usize,
    work: usize,
) -> Result<Book<'a>, Answer>
    ensures checked { Checked (earlier (room out work) (term_answer scan.now.words.now term.now)) result }
    ensures same { IfOk result (λ b. b.words.now ≡ scan.now.words.now) }
{
    room(out, work)?;
    let book = scan.outcome?;
    passed(check_over(&book, term))?;
    Ok(book)
}

// Whether a check passed, by its answer.
fn passed(answer: Answer) -> Result<(), Answer>
    ensures { Checked answer result }
{
    if !answer.is_taken() {
        return Err(answer);
    }
    Ok(())
}

// Hands the term in the area's first row to the caller, the words before its gap and those behind it, and clears the area.
pub fn hand_back(out: &mut [u16], work: &mut [u16], gap: Gap)
    requires { (area_words ≤ length work.old) × Lies gap × (term_words ≤ length out.old) }
    ensures answer { out.new ≡ over out.old 0 (term_in work.old gap) }
    ensures zeroed { work.new ≡ over work.old 0 (zeros area_words) }
{
    let front = gap.front;
    let back = gap.back;
    buffers::copy_in(out, 0, &work[0..front]);
    buffers::copy_in(out, front, &work[back..TERM_WORDS]);
    buffers::clear(work, 0, AREA_WORDS);
}

// 10 for buffers below the words that are asked for.
fn room(out: usize, work: usize) -> Result<(), Answer>
    ensures { Checked (room out work) result }
{
    if out < TERM_WORDS || work < AREA_WORDS {
        return Err(Answer::new(Verdict::Cramped, 0, 0));
    }
    Ok(())
}
