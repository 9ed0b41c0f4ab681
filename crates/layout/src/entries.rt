// The entries of the symbols' strategies.
ghost use Rattle.std.specs.Prelude.{◌≡◌, ℕ};
ghost use Rattle.system.specs.BuiltIns.{built_in_strategy};
ghost use Rattle.system.specs.System.{strategy};
ghost use Rattle.reader.specs.Book.{system_of};
ghost use Rattle.system.specs.Terms.{among};
ghost use Rattle.layout.specs.entries.Entries.{entry_of};

use crate::index::Index;
use system::built_ins::built_in_arity;
use system::words::wide;

// What an entry asks for: nothing (the strategy is over), nothing new (it stood before), that the rules are tried, or that the argument is
// evaluated which has this many others before it.
#[derive(Clone, Copy)]
pub enum Entry {
    End,
    Repeated,
    Rules,
    Argument(usize),
}

// Entry c of the strategy of a word that is not listed: an operator's is 1 2 0 or 1 0, in which nothing is repeated.
fn built_in_entry(w: u16, c: usize) -> Entry
    ensures { (f : ℕ) → result ≡ entry_of (built_in_strategy w) f c }
{
    let n = built_in_arity(w);
    if n == 0 || n < c {
        return Entry::End;
    }
    if c == n {
        return Entry::Rules;
    }
    Entry::Argument(c)
}

impl Index<'_> {
    // Entry c of the strategy of w, of which f entries were begun before the present run of transitions.
    pub fn entry_of(&self, w: u16, f: usize, c: usize) -> Entry
        ensures { result ≡ entry_of (strategy (system_of self.now.book.words.now) w) f c }
    {
        let symbol = wide(w);
        if self.book.shape.symbols <= symbol {
            return built_in_entry(w, c);
        }
        let entries = self.entries_of(symbol);
        let Some(&e) = entries.get(c) else {
            return Entry::End;
        };
        if entries[f.min(c)..c].iter().any(|d| e == *d) {
            return Entry::Repeated;
        }
        match wide(e) {
            0 => Entry::Rules,
            n => Entry::Argument(n - 1),
        }
    }

    // Whether entry e stands in the strategy of w: above 0, whether its argument e is evaluated. An operator's is 1 2 0 or 1 0.
    pub fn stands_in(&self, w: u16, e: usize) -> bool
        ensures { result ≡ among e (strategy (system_of self.now.book.words.now) w) }
    {
        let symbol = wide(w);
        if self.book.shape.symbols <= symbol {
            let n = built_in_arity(w);
            return n != 0 && e <= n;
        }
        let entries = self.entries_of(symbol);
        entries.iter().any(|d| e == wide(*d))
    }
}
