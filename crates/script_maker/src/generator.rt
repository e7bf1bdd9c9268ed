//! A linear congruential generator of numbers.

ghost use Rattle.std.specs.Prelude.{◌≡◌};
ghost use Rattle.script_maker.specs.Generator.{first_number, next_number, picked};

/// Each number is below this one: 2 to the power 31.
pub const MODULUS: u64 = 2_147_483_648;

/// By what a number is multiplied.
pub const MULTIPLIER: u64 = 1_103_515_245;

/// What is then added.
pub const INCREMENT: u64 = 12_345;

/// A pick leaves out what is below this one: the lower bits of such numbers repeat too soon.
pub const LOW_PART: u32 = 65_536;

/// How many kinds of commands there are to pick.
pub const KINDS: u32 = 7;

/// The number at which a loader starts.
pub(crate) fn first_number(seed: u32, loader: u32) -> u32
    ensures { result ≡ first_number seed loader }
{
    ((u64::from(seed) + u64::from(loader)) % MODULUS) as u32
}

/// The number behind this one.
pub(crate) fn next_number(number: u32) -> u32
    ensures { result ≡ next_number number }
{
    ((u64::from(number) * MULTIPLIER + INCREMENT) % MODULUS) as u32
}

/// The kind of command that a number picks, from 0.
pub(crate) fn picked(number: u32) -> u32
    ensures { result ≡ picked number }
{
    number / LOW_PART % KINDS
}
