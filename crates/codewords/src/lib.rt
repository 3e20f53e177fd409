// The codeword of a number in order 2 to 6 as a word, at most 47 bits long.
#![tactic(auto)]

ghost use Rattle.std.specs.Prelude.{◌≡◌, ◌+◌, ◌-◌, ◌^◌, ◌≤◌, ◌<◌, min, leb, length};
ghost use Rattle.bits.specs.Bits.{bit_value, word_bits};
ghost use Rattle.calls.specs.Limits.{max_number};
ghost use Rattle.fibonacci.specs.Code.{first, codeword};
ghost use Rattle.codewords.specs.Leaves.{rate, low_count, low_digits, HighDigits, Codes};

mod tables;

use bits::Word;
use fibonacci::Order;
use tables::LOW_DIGITS;

// Digits of a codeword above its lowest: the word so far, with the last ones below them, and the value that is left for the lowest.
#[derive(Clone, Copy)]
struct High {
    word: u64,
    left: u64,
}

// How many digits eight bits of a number make, at least.
#[tactic(auto, unfolding(crate::specs::Leaves::rate))]
fn rate(order: Order) -> usize
    ensures { (result ≡ rate order.m) × (result ≤ 11) }
{
    match order.m() {
        2 => 11,
        3 => 9,
        _ => 8,
    }
}

// A first guess at the bits of the codeword of n before its last ones, by the length of n in bits: right, or up to three too few. It is at most 42 without the
// `min`, which tells so to the compiler: the first numbers are then looked up with no test of how many there are. Requires: a legal number, as all functions
// below.
fn guess(order: Order, n: u64) -> usize
    requires { (1 ≤ n) × (n ≤ max_number) }
    ensures { (first order.m result ≤ n) × (n < first order.m (result + 4)) × (result ≤ 42) }
{
    (n.ilog2() as usize * rate(order) / 8).min(42)
}

// 1 where the first number of d bits before the last ones is at most n, else 0: a number to add, so that `body_length` has no branch on n. Requires: n in the
// range of a legal number, which `body_length` shows.
#[tactic(auto, using(crate::proofs::Codewords::first_reached, crate::proofs::Codewords::first_none, crate::proofs::Codewords::first_above))]
fn one_if_reached(order: Order, d: usize, n: u64) -> usize
    requires { n ≤ max_number }
    ensures { result ≡ bit_value (leb (first order.m d) n) }
{
    let x = order.first_number(d);
    usize::from(x != 0 && x <= n)
}

// How many bits of the codeword of n stand before its last ones: the largest d whose first number is at most n. Requires: a legal number, which `bit_length`
// and `codeword` show.
fn body_length(order: Order, n: u64) -> usize
    requires { (1 ≤ n) × (n ≤ max_number) }
    ensures { (result + order.m ≡ length (codeword order.m n)) × (result + order.m ≤ 47) }
{
    let d = guess(order, n);
    let one = one_if_reached(order, d + 1, n);
    let two = one_if_reached(order, d + 2, n);
    let three = one_if_reached(order, d + 3, n);
    d + one + two + three
}

// How many of the lowest digits `codeword` looks up at once.
#[tactic(auto, unfolding(crate::specs::Leaves::low_count))]
fn low_count(order: Order) -> usize
    ensures { (result ≡ low_count order.m) × (result ≤ 8) }
{
    if order.m() == 2 { 8 } else { 6 }
}

// The lowest digits of the numbers below 64, which `codeword` looks up.
pub fn low_digits(order: Order) -> &'static [u8; 64]
    ensures { result.now ≡ low_digits order.m }
{
    &LOW_DIGITS[order.m() - 2]
}

// The greedy digit of a position of value f: 1 where f is at most what is left, else 0. What is left comes with 2^32 added, and the difference reaches 2^32
// exactly where the digit is 1: arithmetic, as the compiler makes a branch of an `if` here, and the loop then takes twice as long.
// Requires: both are in the range of a legal number, which `high_digits` keeps.
fn digit(f: u64, above: u64) -> u64
    requires { (f ≤ max_number) × (2 ^ 32 ≤ above) × (above ≤ 2 ^ 32 + max_number) }
    ensures { (result ≡ bit_value (leb f (above - 2 ^ 32))) × (result ≤ 1) }
{
    (above - f) >> 32
}

// The digits from position d down to the one above the lowest, none where d is no more than that, before the last ones. Requires: a legal number, and how long
// its codeword is, which `body_length` gives.
fn high_digits(order: Order, n: u64, d: usize) -> High
    requires { (1 ≤ n) × (n ≤ max_number) × (d + order.m ≡ length (codeword order.m n)) }
    ensures { HighDigits order.m n d (min d (low_count order.m)) result.left result.word }
{
    let m = order.m();
    let mut word: u64 = (1 << m) - 1;
    let mut above = n - order.first_number(d) + (1 << 32);
    for j in (low_count(order)..d).rev() {
        let f = order.position(j + 1);
        let one = digit(f, above);
        above -= one * f;
        word += one << (m + d - 1 - j);
    }
    let left = above - (1 << 32);
    High { word, left }
}

// How many bits the codeword of n has. Requires: a legal number, which whoever asks has checked.
pub fn bit_length(order: Order, n: u64) -> usize
    requires { (1 ≤ n) × (n ≤ max_number) }
    ensures { (result ≡ length (codeword order.m n)) × (result ≤ 47) }
{
    body_length(order, n) + order.m()
}

// The codeword of n: its last ones, and in front of them the digits, the highest first. Requires: a legal number, which whoever writes it has checked.
pub fn codeword(order: Order, n: u64) -> Word
    requires { (1 ≤ n) × (n ≤ max_number) }
    ensures { Codes order.m n result }
{
    let d = body_length(order, n);
    let len = d + order.m();
    let high = high_digits(order, n, d);
    let left = high.left as usize;
    let digits = u64::from(low_digits(order)[left]);
    let bits = high.word + (digits << len >> low_count(order));
    Word { bits, len }
}
