// The limits that a caller sets, and the record of the steps in words that the caller lends (02, F-3).
ghost use Rattle.std.specs.Prelude.{◌≡◌, true, ◌+◌, ◌*◌, ◌≤◌, ◌<◌, length, IfNone};
ghost use Rattle.system.specs.Limits.{max_word, max_steps};
ghost use Rattle.records.specs.recording.Kept.{limits_of, met, paired};

use system::numbers::Limit;

// The most steps, and whether a record is lent. Its room is as many words as it has.
#[derive(Clone, Copy)]
pub struct Bounds {
    pub limit: u32,
    pub recorded: bool,
}

// The limit that one more step meets after k steps, where the record has so many words: 11, then 16. Where none is met, the steps can be
// counted on.
pub fn limit_met(bounds: Bounds, words: usize, k: u32) -> Option<Limit>
    ensures limit { result ≡ met (limits_of bounds words) k }
    ensures counted { IfNone result (k < max_steps) }
{
    if bounds.limit <= k {
        return Some(Limit::Spent);
    }
    if bounds.recorded && words < 2 * (k as usize) + 2 {
        return Some(Limit::Full);
    }
    None
}

// Writes the pair of a step behind those of k others, where a record is lent.
pub fn put_pair(record: &mut [u16], bounds: Bounds, k: u32, at: usize, number: usize)
    requires { (bounds.recorded ≡ true → 2 * k + 2 ≤ length «record».old) × (at ≤ max_word) × (number ≤ max_word) }
    ensures { «record».new ≡ paired bounds.recorded «record».old k at number }
{
    if bounds.recorded {
        let i = 2 * (k as usize);
        record[i] = at as u16;
        record[i + 1] = number as u16;
    }
}
