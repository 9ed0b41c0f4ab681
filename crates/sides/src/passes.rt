// A side written from its end to its front.
ghost use Rattle.std.specs.Prelude.{◌<◌, ℕ, List, []};
ghost use Rattle.sides.specs.passes.Tasks.{Task, task, Fillable, AtSymbol, AtVariable};

use crate::writing::{Source, stretch_at};
use system::limits::{VARIABLE, VARIABLES};
use system::words::wide;

// What is written for the words of a side.
pub(crate) trait Pass {
    // When the words `rest` of the side are left, what is written of the others stands from `to` on.
    ghost stands: { Self → Task → List ℕ → List ℕ → ℕ → Type 0 };

    // For a symbol, before word `to`; and where it starts.
    fn symbol(&self, area: &mut [u16], to: usize, w: u16) -> usize
        requires { (t : Task) × (rest : List ℕ) × (rest' : List ℕ) × AtSymbol t rest rest' w × stands self.now t rest area.old to }
        ensures { (t : Task) (rest rest' : List ℕ) → AtSymbol t rest rest' w → stands self.now t rest area.old to →
            stands self.now t rest' area.new result };

    // For a variable, before word `to`: its stretch, of n words from `from` on.
    fn stretch(&self, area: &mut [u16], to: usize, from: usize, n: usize) -> usize
        requires { (t : Task) × (rest : List ℕ) × (rest' : List ℕ) × AtVariable t rest rest' from n × stands self.now t rest area.old to }
        ensures { (t : Task) (rest rest' : List ℕ) → AtVariable t rest rest' from n → stands self.now t rest area.old to →
            stands self.now t rest' area.new result };
}

// A pass over all words of a side, before those from `back` on; and where what it has written starts. The stretch of variable v starts at the word
// of the redex that word v of the bindings tells, and has as many words as word 16 + v tells.
pub(crate) fn write<P: Pass>(
    pass: &P,
    side: &[u16],
    area: &mut [u16],
    back: usize,
    bindings: &[u16],
    source: Source,
) -> usize
    requires { let t = task side.now area.old back bindings.now source in
        Fillable t × P.stands pass.now t side.now area.old back }
    ensures { P.stands pass.now (task side.now area.old back bindings.now source) [] area.new result }
{
    let mut to = back;
    for w in side.iter().rev() {
        let v = wide(*w);
        if v < VARIABLE {
            to = pass.symbol(area, to, *w);
        } else {
            let from = stretch_at(source, wide(bindings[v - VARIABLE]));
            let n = wide(bindings[VARIABLES + (v - VARIABLE)]);
            to = pass.stretch(area, to, from, n);
        }
    }
    to
}
