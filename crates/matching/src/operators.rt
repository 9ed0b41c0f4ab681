// The built-in rules: two words or three tell whether one matches, and no rule of the book is looked at.
ghost use Rattle.std.specs.Prelude.{◌≡◌, [], ◌∷◌};
ghost use Rattle.matching.specs.Matching.{computed};
ghost use Rattle.matching.specs.Bindings.{computed_rule};

use crate::FirstRule;
use system::built_ins::{
    MAXIMUM, MAXIMUM_RULE, MINIMUM, MINIMUM_RULE, SQUARE, SQUARE_RULE, is_literal, larger, smaller,
    squared,
};
use system::words::wide;

// The built-in rule that matches the subterm that starts with these three words. A word that is not there is no literal.
pub fn computed(first: u16, m: u16, n: u16) -> Option<FirstRule>
    ensures { result ≡ computed_rule (computed (first ∷ m ∷ n ∷ [])) }
{
    if !is_literal(m) {
        return None;
    }
    match wide(first) {
        SQUARE => Some(FirstRule::Computed {
            number: SQUARE_RULE,
            word: squared(m),
        }),
        MAXIMUM if is_literal(n) => Some(FirstRule::Computed {
            number: MAXIMUM_RULE,
            word: larger(m, n),
        }),
        MINIMUM if is_literal(n) => Some(FirstRule::Computed {
            number: MINIMUM_RULE,
            word: smaller(m, n),
        }),
        _ => None,
    }
}
