// Whether a rule falls.
ghost use Rattle.std.specs.Prelude.{◌≡◌, true};
ghost use Rattle.system.specs.Limits.{variables};
ghost use Rattle.termination.specs.WeightTest.{keeps_at, below, falls, in_range};
ghost use Rattle.matching.specs.rules.Searches.{NumberedSide};
ghost use Rattle.termination.specs.falling.Counts.{Counts};

use crate::weighing::weigh;
use system::limits::{VARIABLE, VARIABLES};
use system::words::wide;

// How often each variable stands in the words.
fn count(words: &[u16]) -> [u16; VARIABLES]
    requires { NumberedSide words.now }
    ensures { Counts words.now result }
{
    let mut counts = [0u16; VARIABLES];
    for w in words {
        if let Some(v) = wide(*w).checked_sub(VARIABLE) {
            counts[v] += 1;
        }
    }
    counts
}

// Whether no variable is on the right more often than on the left.
fn keeps(lhs: &[u16], rhs: &[u16]) -> bool
    requires { NumberedSide lhs.now × NumberedSide rhs.now }
    ensures { result ≡ below (keeps_at (record { lhs = lhs.entry.now; rhs = rhs.now })) variables }
{
    let left = count(lhs);
    let right = count(rhs);
    right.iter().zip(&left).all(|(r, l)| *r <= *l)
}

// Whether the rule with these sides falls, under weights that are in range.
#[tactic(auto, using(crate::proofs::Ranges::side_limit), unfolding(crate::specs::WeightTest::falls))]
pub fn falls(weights: &[u16], lhs: &[u16], rhs: &[u16]) -> bool
    requires { (in_range weights.now ≡ true) × NumberedSide lhs.now × NumberedSide rhs.now }
    ensures { result ≡ falls weights.now (record { lhs = lhs.entry.now; rhs = rhs.now }) }
{
    weigh(weights, rhs) < weigh(weights, lhs) && keeps(lhs, rhs)
}
