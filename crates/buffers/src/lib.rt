// Edits inside a lent slice of words. Each contract gives the whole list at exit.
#![tactic(auto)]

ghost use Rattle.std.specs.Prelude.{◌≡◌, ◌+◌, ◌≤◌, length};
ghost use Rattle.buffers.specs.moves.Parts.{part};
ghost use Rattle.buffers.specs.Words.{over, zeros};

// Copies n words within the slice; the two stretches may overlap.
pub fn move_words(w: &mut [u16], from: usize, to: usize, n: usize)
    requires { (from + n ≤ length w.old) × (to + n ≤ length w.old) }
    ensures { w.new ≡ over w.old to (part from n w.old) }
{
    w.copy_within(from..from + n, to);
}

// Zeros in n words.
pub fn clear(w: &mut [u16], at: usize, n: usize)
    requires { at + n ≤ length w.old }
    ensures { w.new ≡ over w.old at (zeros n) }
{
    w[at..at + n].fill(0);
}

// All of src, written over w from `at` on: word by word, since std's copy_from_slice asks memmove of the desk (include/cue.h).
pub fn copy_in(w: &mut [u16], at: usize, src: &[u16])
    requires { at + length src.now ≤ length w.old }
    ensures { w.new ≡ over w.old at src.now }
{
    for i in 0..src.len() {
        w[at + i] = src[i];
    }
}
