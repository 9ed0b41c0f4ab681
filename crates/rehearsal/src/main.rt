// Runs the cases of 01 that are not starred (C13, C14, C15), orders that repeat an argument, nested, and nests of levels (02, F-2); prints
// the three numbers of each.
#![tactic(auto)]

ghost use Rattle.std.specs.Prelude.{◌<◌};

use std::io;
use system::Answer;
use system::limits::{AREA_WORDS, TERM_WORDS};

// 01's book B.
const B: [u16; 39] = [
    5, 0, 2, 1, 1, 0, // flash, then, head, rest and chase, each with the count of its arguments
    5, 0, 1, 1, 2, 1, 0, 2, 1, 0, 1, 0, // their orders
    3, 1, 4, 3, 1, 0, 4, // three rules: chase to then(flash, chase)
    4, 2, 1, 32768, 32769, 1, 32768, // head(then(x, y)) to x
    4, 3, 1, 32768, 32769, 1, 32769, // rest(then(x, y)) to y
];

// B with then's order 1 2.
const ENDLESS: [u16; 40] = [
    5, 0, 2, 1, 1, 0, // the names
    5, 0, 2, 1, 2, 2, 1, 0, 2, 1, 0, 1, 0, // their orders
    3, 1, 4, 3, 1, 0, 4, // three rules, as above
    4, 2, 1, 32768, 32769, 1, 32768, // of head
    4, 3, 1, 32768, 32769, 1, 32769, // of rest
];

// Expands a cue over a book, in buffers of its own.
fn rehearse(
    rt: &impl Print,
    label: &str,
    book: &[u16],
    cue: &[u16],
    allowance: u32,
) -> io::Result<()> {
    let mut out = [0; TERM_WORDS];
    let mut work = [0; AREA_WORDS];
    let Answer {
        number,
        place,
        steps,
    } = evaluation::expand(book, cue, allowance, &mut out, &mut work);
    println!(rt; "{label}")?;
    println!(rt; "{number} {place} {steps}")
}

// A name round itself, and a word round which they all stand: N words.
fn nest<const N: usize>(name: u16, last: u16) -> [u16; N]
    requires { 0 < N }
{
    let mut cue = [name; N];
    cue[N - 1] = last;
    cue
}

// "Then's order 1 2, cue 4: allowance 64 gives 13 with 64 steps; 63 gives 11 with 63."
fn endless_chase(rt: &impl Print) -> io::Result<()> {
    rehearse(rt, "C13 allowance 64", &ENDLESS, &[4], 64)?;
    rehearse(rt, "C13 allowance 63", &ENDLESS, &[4], 63)
}

// "In B, 63 heads round flash: taken, 0 steps. 64 heads: 13, 0 steps."
fn many_heads(rt: &impl Print) -> io::Result<()> {
    rehearse(rt, "C14 63 heads", &B, &nest::<64>(2, 0), 10)?;
    rehearse(rt, "C14 64 heads", &B, &nest::<65>(2, 0), 10)
}

// "Names z, p (2 arguments), d (1); only d's order is not empty: 1 0; rule d(a) to p(a, a). Eleven d round z: 4,095 words, 11 steps.
// Twelve: 12, 11 steps."
fn doubling(rt: &impl Print) -> io::Result<()> {
    let book = [
        3, 0, 2, 1, 3, 0, 0, 2, 1, 0, // the names and their orders
        1, 2, 2, 32768, 3, 1, 32768, 32768, // the rule
    ];
    rehearse(rt, "C15 eleven", &book, &nest::<12>(2, 0), 100)?;
    rehearse(rt, "C15 twelve", &book, &nest::<13>(2, 0), 100)
}

// A name f with the order 1, sixteen times, nested: if each of them were followed every time, 62 would take 16^62 turns. No rule changes
// anything here; from level 64 it is 13 as ever.
fn nested_repeats(rt: &impl Print) -> io::Result<()> {
    let book = [
        2, 0, 1, // names z, f
        2, 0, 16, 1, 1, 1, 1, 1, 1, 1, 1, 1, 1, 1, 1, 1, 1, 1, 1, // z's order is empty
        0, // no rules
    ];
    rehearse(
        rt,
        "repeats 62 round a constant",
        &book,
        &nest::<63>(1, 0),
        0,
    )?;
    rehearse(
        rt,
        "repeats 64 round a constant",
        &book,
        &nest::<65>(1, 0),
        0,
    )
}

// Expands a cue over a book of six names z, f, g, h, a, b, of which f repeats its argument as above.
fn over_repeats(rt: &impl Print, label: &str, cue: &[u16]) -> io::Result<()> {
    let book = [
        6, 0, 1, 1, 1, 0, 0, // the names
        6, 0, 16, 1, 1, 1, 1, 1, 1, 1, 1, 1, 1, 1, 1, 1, 1, 1, 1, // the orders of z and f
        2, 1, 0, 2, 0, 1, 1, 0, 1, 0, // of g, h, a and b
        3, 3, 2, 1, 32768, 2, 2, 32768, // three rules: g(f(x)) to g(x)
        2, 3, 0, 1, 0, 1, 4, 1, 5, // h(z) to z, a to b
    ];
    rehearse(rt, label, &book, cue, 1000)
}

// 62 f round a: a becomes b where it is first come to, and nothing more fits. 1 step, 63 words.
fn change_inside(rt: &impl Print) -> io::Result<()> {
    over_repeats(rt, "repeats round a change", &nest::<63>(1, 4))
}

// 30 f round g round 31 f round z: g takes one f away in each step, and its order starts anew each time. 31 steps, and what is left is 30 f
// round g round z: 32 words.
fn changes_between(rt: &impl Print) -> io::Result<()> {
    let mut cue = nest::<63>(1, 0);
    cue[30] = 2;
    over_repeats(rt, "repeats round and below changes", &cue)
}

// h tries the rules before its argument, so that each evaluation of 40 h round z takes just the innermost h away. One f asks for sixteen
// evaluations: 16 steps, f round 24 h round z. 22 f ask for more than enough: 40 steps, 22 f round z.
fn changes_by_repeats(rt: &impl Print) -> io::Result<()> {
    let mut cue = nest::<42>(3, 0);
    cue[0] = 1;
    over_repeats(rt, "repeats that change, one", &cue)?;
    let mut more = nest::<63>(3, 0);
    more[..22].fill(1);
    over_repeats(rt, "repeats that change, 22", &more)
}

// A name c of two arguments with the order 1 2, eight times: 62 c in the first argument of each other, and z in the second, have 125 words. w
// becomes such a c, with z: 62 w round z grow to the same cue in 62 steps.
fn comb(rt: &impl Print) -> io::Result<()> {
    let book = [
        3, 0, 2, 1, // names z, c, w
        3, 0, 16, 1, 2, 1, 2, 1, 2, 1, 2, 1, 2, 1, 2, 1, 2, 1, 2, 1, 0, // their orders
        1, 2, 2, 32768, 3, 1, 32768, 0, // w(x) to c(x, z)
    ];
    let mut cue = [0; 125];
    cue[..62].fill(1);
    rehearse(rt, "comb", &book, &cue, 0)?;
    rehearse(rt, "comb that grows", &book, &nest::<63>(2, 0), 1000)
}

// "Higher of" in the first argument of each other, over levels: the innermost level of 63 is opened at level 64, each takes one step, and
// one level is left. Of 64 the innermost argument would be opened from level 64.
fn nested_levels(rt: &impl Print) -> io::Result<()> {
    let mut cue = [16384; 127];
    cue[..63].fill(16640);
    rehearse(rt, "F-2 63 higher of", &B, &cue, 63)?;
    rehearse(rt, "F-2 63 higher of, allowance 62", &B, &cue, 62)?;
    let mut deeper = [16384; 129];
    deeper[..64].fill(16640);
    rehearse(rt, "F-2 64 higher of", &B, &deeper, 63)
}

fn main(rt: HostRuntime) -> io::Result<()> {
    println!(rt; "number place steps")?;
    endless_chase(&rt)?;
    many_heads(&rt)?;
    doubling(&rt)?;
    nested_repeats(&rt)?;
    change_inside(&rt)?;
    changes_between(&rt)?;
    changes_by_repeats(&rt)?;
    comb(&rt)?;
    nested_levels(&rt)
}
