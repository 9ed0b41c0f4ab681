// Counts, lengths and entries: numbers of the book within their ranges.
ghost use Rattle.std.specs.Prelude.{◌≡◌, ◌≤◌, ◌+◌, length, IfOk};
ghost use Rattle.system.specs.Limits.{max_word};
ghost use Rattle.reader.specs.Parser.{times, number};
ghost use Rattle.reader.specs.scan.Sections.{word_of, section_of, Inside};

use crate::Refusal;
use system::numbers::Fault;
use system::words::wide;

// The number at `at`, which is to be from `low` to `high`; where it is not, what is wrong is `otherwise`.
#[tactic(auto, unfolding(crate::specs::Parser::number, crate::specs::Parser::word, crate::specs::Parser::outside))]
pub fn read_number(
    book: &[u16],
    at: usize,
    low: usize,
    high: usize,
    otherwise: Fault,
) -> Result<usize, Refusal>
    ensures value { result ≡ word_of (number book.now otherwise low high at) }
    ensures inside { IfOk result (λ n. Inside book.now at low high n) }
{
    let Some(w) = book.get(at) else {
        return Err(Refusal {
            fault: Fault::Missing,
            place: at,
        });
    };
    let n = wide(*w);
    if !(low..=high).contains(&n) {
        return Err(Refusal {
            fault: otherwise,
            place: at,
        });
    }
    Ok(n)
}

// n numbers from 0 to `high`: the index after them.
pub fn read_numbers(
    book: &[u16],
    at: usize,
    n: usize,
    high: usize,
    otherwise: Fault,
) -> Result<usize, Refusal>
    requires { (at ≤ length book.now) × (n ≤ max_word) }
    ensures value { result ≡ section_of (times n (number book.now otherwise 0 high) at) }
    ensures within { IfOk result (λ i. (i ≡ at + n) × (i ≤ length book.now)) }
{
    for i in at..at + n {
        read_number(book, i, 0, high, otherwise)?;
    }
    Ok(at + n)
}
