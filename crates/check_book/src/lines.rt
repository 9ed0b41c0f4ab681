// The lines of the text, each with 01's words ("The table of numbers").
ghost use Rattle.std.specs.Prelude.{◌+◌, ◌≤◌, ◌≡◌, ◌++◌, length};
ghost use Rattle.check_book.specs.Verdict.{text_bytes, row, fault_line, taken_line, order_line};
ghost use Rattle.check_book.specs.lines.Rows.{IsRow, placed};

use printing::Page;
use reader::Refusal;
use system::Answer;
use system::numbers::Fault;

// A row of the table: its word, and when it is said.
fn row(fault: Fault) -> (&'static str, &'static str)
    ensures told { IsRow (row fault) result }
    ensures short { length result.0.now + length result.1.now ≤ 128 }
{
    match fault {
        Fault::Missing => ("short", "a word the book needs is missing"),
        Fault::Range => ("count", "a count or length outside its range"),
        Fault::Entry => ("entry", "an order entry above the argument count"),
        Fault::Unknown => ("stranger", "a side's word is neither name nor placeholder"),
        Fault::Unbalanced => (
            "ragged",
            "a side is complete too early, or not at its last word",
        ),
        Fault::VariableHead => ("headless", "a left side starts with a placeholder"),
        Fault::Unbound => (
            "stray",
            "a left placeholder is above the count of different ones before it, or a right one is not in the left",
        ),
        Fault::Trailing => ("surplus", "words after the last rule"),
        Fault::BuiltInHead => (
            "builtin",
            "a left side starts with a level or a built-in word",
        ),
    }
}

// The place, of at most 20 digits, between what it counts and when that is said.
#[tactic(auto, using(printing::proofs::Decimals::decimal_twenty), unfolding(crate::specs::lines::Rows::placed))]
fn put_place<const N: usize>(kind: &str, place: usize, when: &str, page: &mut Page<N>)
    requires { length page.old + length kind.now + length when.now + 23 ≤ N }
    ensures { page.new ≡ page.old ++ placed kind.now place when.now }
{
    page.put(kind);
    page.put_decimal(place as u64);
    page.put(": ");
    page.put_line(when);
}

// The line for a book that the reader refuses.
#[tactic(auto, unfolding(crate::specs::Verdict::refusal_line, crate::specs::lines::Rows::placed))]
pub fn put_fault<const N: usize>(r: Refusal, page: &mut Page<N>)
    requires { length page.old + text_bytes ≤ N }
    ensures { page.new ≡ page.old ++ fault_line r.fault r.place }
{
    let (word, when) = row(r.fault);
    page.put("show.book: ");
    page.put(word);
    put_place(" at word ", r.place, when, page);
}

// The line for a book that the reader takes, with its length in words.
#[tactic(auto, using(printing::proofs::Decimals::decimal_twenty), unfolding(crate::specs::Verdict::taken_line))]
pub fn put_taken<const N: usize>(n: usize, page: &mut Page<N>)
    requires { length page.old + 45 ≤ N }
    ensures whole { page.new ≡ page.old ++ taken_line n }
    ensures short { length page.new ≤ length page.old + 45 }
{
    page.put("show.book: taken, ");
    page.put_decimal(n as u64);
    page.put_line(" words");
}

// The line for the order test.
pub fn put_order<const N: usize>(t: Answer, page: &mut Page<N>)
    requires { length page.old + 128 ≤ N }
    ensures { page.new ≡ page.old ++ order_line t }
{
    if t.is_taken() {
        return page.put_line("order test: taken, every name passes");
    }
    page.put("order test: unsettled");
    let when = "its order holds no 0, or an entry after the last 0 is not idle";
    put_place(" at name ", t.place, when, page);
}
