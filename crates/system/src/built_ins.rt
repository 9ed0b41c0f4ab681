// The built-in words, as specs/BuiltIns.antt names them.
ghost use Rattle.std.specs.Prelude.{◌≡◌, ◌+◌, ◌-◌, ◌≤◌, true};
ghost use Rattle.system.specs.BuiltIns.{literal, is_literal, is_built_in, built_in_arity, larger, smaller, square_law};

use crate::squares::square_law;

// Where the literals start, and the operators behind them.
pub const LITERAL: usize = 16384;

pub const MAXIMUM: usize = 16640;

pub const MINIMUM: usize = 16641;

pub const SQUARE: usize = 16642;

// The last of them.
pub const LAST_BUILT_IN: usize = SQUARE;

// The numbers of their rules.
pub const MAXIMUM_RULE: usize = 128;

pub const MINIMUM_RULE: usize = 129;

pub const SQUARE_RULE: usize = 130;

#[tactic(auto, unfolding(crate::specs::BuiltIns::is_literal))]
pub fn is_literal(w: u16) -> bool
    ensures { result ≡ is_literal w }
{
    (LITERAL..MAXIMUM).contains(&usize::from(w))
}

// Whether w is a literal or an operator.
#[tactic(auto, unfolding(crate::specs::BuiltIns::is_built_in))]
pub fn is_built_in(w: u16) -> bool
    ensures { result ≡ is_built_in w }
{
    (LITERAL..=LAST_BUILT_IN).contains(&usize::from(w))
}

// How many arguments w takes.
#[tactic(auto, unfolding(crate::specs::BuiltIns::built_in_arity, crate::specs::BuiltIns::is_binary, crate::specs::BuiltIns::is_unary))]
pub fn built_in_arity(w: u16) -> usize
    ensures { (result ≡ built_in_arity w) × (result ≤ 2) }
{
    match usize::from(w) {
        MAXIMUM | MINIMUM => 2,
        SQUARE => 1,
        _ => 0,
    }
}

// The larger and the smaller of two words.
#[tactic(auto, unfolding(crate::specs::BuiltIns::larger))]
pub fn larger(m: u16, n: u16) -> u16
    ensures { result ≡ larger m n }
{
    m.max(n)
}

#[tactic(auto, unfolding(crate::specs::BuiltIns::smaller))]
pub fn smaller(m: u16, n: u16) -> u16
    ensures { result ≡ smaller m n }
{
    m.min(n)
}

// The word of the level that the curve makes of the literal w.
pub fn squared(w: u16) -> u16
    requires { is_literal w ≡ true }
    ensures { result ≡ literal + square_law (w - literal) }
{
    let level = (usize::from(w) - LITERAL) as u8;
    (LITERAL + usize::from(square_law(level))) as u16
}
