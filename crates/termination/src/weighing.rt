// What words weigh.
ghost use Rattle.std.specs.Prelude.{◌≡◌};
ghost use Rattle.termination.specs.Weights.{built_in_weight, word_weight};
ghost use Rattle.termination.specs.WeightTest.{weight_limit};

use system::built_ins::{LITERAL, is_built_in, is_literal};
use system::limits::MAX_STEPS;
use system::words::wide;

// What a word weighs that is no name: an operator 1, all others nothing.
#[tactic(auto, unfolding(crate::specs::Weights::built_in_weight))]
fn built_in_weight(w: u16) -> u16
    ensures { result ≡ built_in_weight w }
{
    u16::from(is_built_in(w) && !is_literal(w))
}

// What one word weighs.
#[tactic(auto, unfolding(crate::specs::Weights::word_weight))]
fn word_weight(weights: &[u16], w: u16) -> u16
    ensures { result ≡ word_weight weights.now w }
{
    let f = wide(w);
    if f < LITERAL {
        weights.get(f).copied().unwrap_or(0)
    } else {
        built_in_weight(w)
    }
}

// What the words weigh in all; the largest step limit where that is more than 32 bits hold.
pub fn weigh(weights: &[u16], words: &[u16]) -> u32
    ensures { result ≡ weight_limit weights.now words.now }
{
    let mut sum = 0u32;
    for w in words {
        let Some(more) = sum.checked_add(u32::from(word_weight(weights, *w))) else {
            return MAX_STEPS;
        };
        sum = more;
    }
    sum
}
