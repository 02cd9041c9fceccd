//! The names of generations, by their numbers.
ghost use Rattle.std.specs.Prelude.{◌≡◌, ◌+◌, ◌-◌, ◌/◌, ◌≤◌, max, fold, length};
ghost use Rattle.std.specs.Option.{option_copied};
ghost use Rattle.vol_model.specs.Trees.{is_digit, is_generation};
ghost use Rattle.gen_groups.specs.Generations.{digit_value, generation, highest, last_digit, leaving, number_of, numbered, overflow, relative};

use ebcdic_names::Name8;

// The highest number of a generation.
const LAST: u64 = 9999;

// A digit in EBCDIC.
fn is_digit(c: u8) -> bool
    ensures { result ≡ is_digit c }
{
    0xF0 <= c && c <= 0xF9
}

/// Whether it is GnnnnVnn, the name of a generation, in EBCDIC.
pub fn is_generation(name: &Name8) -> bool
    ensures { result ≡ is_generation name.now.bytes }
{
    let [g, a, b, c, d, v, e, f] = name.bytes;
    g == 0xC7
        && (is_digit(a)
            && (is_digit(b)
                && (is_digit(c) && (is_digit(d) && (v == 0xE5 && (is_digit(e) && is_digit(f)))))))
}

// The value of a digit in EBCDIC.
fn digit_value(c: u8) -> u64
    ensures value { result ≡ digit_value c }
    ensures small { result ≤ 15 }
{
    u64::from(c.saturating_sub(0xF0))
}

// The number of a generation.
#[tactic(auto, unfolding(crate::specs::Generations::number_of))]
fn number_of(name: &Name8) -> u64
    ensures value { result ≡ number_of name.now }
    ensures small { result ≤ 16665 }
{
    let [_, a, b, c, d, _, _, _] = name.bytes;
    1000 * digit_value(a) + 100 * digit_value(b) + 10 * digit_value(c) + digit_value(d)
}

// The highest number in a group, 0 in an empty one.
#[tactic(auto, unfolding(crate::specs::Generations::highest))]
fn highest(gens: &[Name8]) -> u64
    ensures value { result ≡ highest gens.now }
    ensures small { result ≤ 16665 }
{
    let mut number = 0u64;
    for name in gens {
        number = number.max(number_of(name));
    }
    number
}

// The last digit of a number in EBCDIC.
fn last_digit(n: u64) -> u8
    ensures { result ≡ last_digit n }
{
    0xF0 + (n % 10) as u8
}

// GnnnnV00 with the last four digits of a number.
#[tactic(auto, unfolding(crate::specs::Generations::numbered))]
fn numbered(n: u64) -> Name8
    ensures { result ≡ numbered n }
{
    Name8 {
        bytes: [
            0xC7,
            last_digit(n / 1000),
            last_digit(n / 100),
            last_digit(n / 10),
            last_digit(n),
            0xE5,
            0xF0,
            0xF0,
        ],
    }
}

/// The generation of a number, GnnnnV00; `None` above 9999, which is the highest.
#[tactic(auto, unfolding(crate::specs::Generations::generation))]
pub fn generation(number: u64) -> Option<Name8>
    ensures { result ≡ generation number }
{
    if number <= LAST {
        Some(numbered(number))
    } else {
        None
    }
}

/// The generation that `n` counts from the newest of a group, which is 0. `gens` are its generations, the newest first,
/// as the catalog holds them.
///
/// Below 0 it is the one so many places after the newest, `None` where the group hasn't so many. Above 0 it is the one
/// that has the highest number of the group and so many more, with V00; in an empty group it is number n. `None` above
/// 9999. It takes no memory.
#[tactic(auto, unfolding(crate::specs::Generations::relative))]
pub fn relative(gens: &[Name8], n: i32) -> Option<Name8>
    ensures { result ≡ relative gens.now n }
{
    if n > 0 {
        return generation(highest(gens) + u64::from(n.unsigned_abs()));
    }
    gens.get(n.unsigned_abs() as usize).copied()
}

/// How many of a group's generations go, the oldest first, before one is added. `gens` are its generations, the newest
/// first, as the catalog holds them; `limit` is the number that it keeps, and `empty` says that all go where one must.
///
/// 0 where there is room, and where the limit is 0, since nothing makes room then. It takes no memory.
#[tactic(auto, unfolding(crate::specs::Generations::overflow, crate::specs::Generations::leaving))]
pub fn overflow(gens: &[Name8], limit: u8, empty: bool) -> usize
    ensures value { result ≡ overflow gens.now limit empty }
    ensures within { result ≤ length gens.now }
{
    if limit == 0 {
        return 0;
    }
    let over = gens.len().saturating_sub(usize::from(limit) - 1);
    if empty && over > 0 { gens.len() } else { over }
}

/// The generations that go before one is added, as many as `overflow` says. They go from the last, the oldest, to the
/// first.
#[tactic(auto, unfolding(crate::specs::Generations::overflow, crate::specs::Generations::leaving))]
pub fn leaving(gens: &[Name8], limit: u8, empty: bool) -> &[Name8]
    ensures { result.now ≡ leaving gens.now limit empty }
{
    &gens[gens.len() - overflow(gens, limit, empty)..]
}
