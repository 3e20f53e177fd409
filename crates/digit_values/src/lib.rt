// What the first bits of a word are worth as digits in order 2 to 6, by a table of bytes.
#![tactic(auto)]

ghost use Rattle.std.specs.Prelude.{◌≡◌, ◌+◌, ◌-◌, ◌*◌, ◌/◌, ◌^◌, ◌≤◌, ◌<◌, min};
ghost use Rattle.bits.specs.Bits.{word_bits};
ghost use Rattle.fibonacci.specs.Code.{value};
ghost use Rattle.calls.specs.Limits.{max_number};
ghost use Rattle.digit_values.specs.Leaves.{IsBody, body_value, Saturated};

use fibonacci::Order;

// The bits before the last ones of a codeword: the first `len` of a word, of which the last is a zero.
#[derive(Clone, Copy)]
pub struct Body {
    pub word: u64,
    pub len: usize,
    pub ghost is_body: { IsBody word len },
}

impl Body {
    // These bits, then zeros. Requires: 46 bits at most, which `byte_value` and `value` require.
    #[tactic(auto, using(crate::proofs::Bytes::masked_is))]
    fn masked(self) -> u64
        requires { self.len ≤ 46 }
        ensures { result ≡ self.word / 2 ^ (64 - self.len) * 2 ^ (64 - self.len) }
    {
        self.word & !(u64::MAX >> self.len)
    }

    // Their value, the first being digit 1. One byte is enough for nine bits, as the last of them is a zero. Requires: nine bits at most, which `word_windows`
    // checks.
    pub fn byte_value(self, order: Order) -> u64
        requires { self.len ≤ 9 }
        ensures is { Saturated (body_value order.m self.word self.len) result }
        ensures few { result ≤ max_number }
    {
        first_bytes(order, self.masked(), 1)
    }

    // The same of as many bits as a legal number has before its last ones, by two bytes for up to 17 bits. Requires: 46 bits at most, which `word_windows`
    // shows.
    pub fn value(self, order: Order) -> u64
        requires { self.len ≤ 46 }
        ensures is { Saturated (body_value order.m self.word self.len) result }
        ensures few { result ≤ 6 * max_number }
    {
        let x = self.masked();
        if self.len <= 17 {
            first_bytes(order, x, 2)
        } else {
            first_bytes(order, x, 6)
        }
    }
}

// What byte c of x is worth, its top bit being digit 8 c + 1; the largest number where that is above. Requires: one of six bytes, which `first_bytes` requires.
fn entry(order: Order, c: usize, x: u64) -> u64
    requires { c < 6 }
    ensures is { result ≡ min max_number (value order.m (8 * c + 1) (word_bits 8 (x / 2 ^ (56 - 8 * c)))) }
    ensures few { result ≤ max_number }
{
    let values = digit_tables::values(order);
    let byte = (x >> (56 - 8 * c)) as usize % 256;
    u64::from(values[256 * c + byte])
}

// What the first n bytes of x are worth. Requires: six bytes at most, which `Body` names.
fn first_bytes(order: Order, x: u64, n: usize) -> u64
    requires { n ≤ 6 }
    ensures is { Saturated (value order.m 1 (word_bits (8 * n) (x / 2 ^ (64 - 8 * n)))) result }
    ensures few { result ≤ n * max_number }
{
    let mut sum = 0;
    for c in 0..n {
        sum += entry(order, c, x);
    }
    sum
}
