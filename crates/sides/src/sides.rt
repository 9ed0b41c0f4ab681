// The words of a rule's sides.
ghost use Rattle.std.specs.Prelude.{◌≡◌, ◌-◌, ◌≤◌, length, drop};
ghost use Rattle.system.specs.Limits.{variables};
ghost use Rattle.matching.specs.rules.Searches.{reduct_length};
ghost use Rattle.redexes.specs.search.Redexes.{binding_words};
ghost use Rattle.sides.specs.sides.Sides.{Sided};

use system::limits::{VARIABLE, VARIABLES};
use system::words::wide;

// How many words the reduct has: the side's, with the variables' terms in their places, of which that of variable v has as many words as word
// 16 + v of the bindings tells.
pub fn reduct_length(side: &[u16], bindings: &[u16]) -> usize
    requires { Sided side.now × (length bindings.now ≡ binding_words) }
    ensures { result ≡ reduct_length (drop variables bindings.now) side.now }
{
    let mut total = 0;
    for w in side {
        let v = wide(*w);
        total += if v < VARIABLE {
            1
        } else {
            wide(bindings[VARIABLES + (v - VARIABLE)])
        };
    }
    total
}

// With how many words both sides end alike.
pub fn shared_end(lhs: &[u16], rhs: &[u16]) -> usize
    ensures { (result ≤ length lhs.now) × (result ≤ length rhs.now)
        × (drop (length lhs.now - result) lhs.now ≡ drop (length rhs.now - result) rhs.now) }
{
    lhs.iter()
        .rev()
        .zip(rhs.iter().rev())
        .take_while(|(l, r)| l == r)
        .count()
}
