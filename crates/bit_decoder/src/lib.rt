// The next codeword of order 2 to 6 in an encoding, found bit by bit.
#![tactic(auto)]

ghost use Rattle.std.specs.Prelude.{◌≡◌, ◌+◌, ◌*◌, ◌^◌, ◌≤◌, ◌<◌, length};
ghost use Rattle.bits.specs.Bits.{unpack};
ghost use Rattle.fibonacci.specs.Code.{ones, value, first};
ghost use Rattle.calls.specs.Limits.{max_number};
ghost use Rattle.bit_decoder.specs.Leaves.{Sought};

use fibonacci::Order;

// What stands next in an encoding: first `len` bits, the last of them a zero, whose value is `val`, and then as many ones as the order, which end a codeword
// before a bit; or fewer ones, and no bit more.
#[derive(Clone, Copy)]
pub enum Next {
    Codeword { bit: usize, len: usize, val: u64 },
    Rest { len: usize, val: u64, run: usize },
}

// What `run` ones after `len` pending bits are worth once a zero follows them, by the first numbers: no loop over them. It matters only as long as a number of
// that length can be at most 4,294,967,295; past that their row has 0, and the result is 0. Requires: fewer than 2^32 bits, which `seek` shows.
#[tactic(auto, using(crate::proofs::Ones::ones_none, crate::proofs::Ones::ones_far, crate::proofs::Ones::ones_near, crate::proofs::Ones::ones_between))]
fn ones_value(order: Order, len: usize, run: usize) -> u64
    requires { len + run < 2 ^ 32 }
    ensures is { first order.m (len + run + 1) ≤ max_number → result ≡ value order.m (len + 1) (ones run) }
    ensures few { result ≤ max_number }
{
    if run == 0 {
        return 0;
    }
    let after = order.first_number(len + run + 1);
    if after == 0 {
        return 0;
    }
    after - order.first_number(len + 1)
}

// The next codeword from a bit on, or what is left. Requires: fewer than 2^28 bytes, and a bit within them or at their end, which the decoder shows.
pub fn seek(order: Order, s: &[u8], from: usize) -> Next
    requires few { length s.now < 2 ^ 28 }
    requires within { from ≤ 8 * length s.now }
    ensures { Sought order.m (unpack s.now) from result }
{
    let m = order.m();
    let end = 8 * s.len();
    let mut len: usize = 0;
    let mut val: u64 = 0;
    let mut run: usize = 0;
    for k in from..end {
        if bits::bit(s, k) {
            run += 1;
            if run == m {
                return Next::Codeword {
                    bit: k + 1,
                    len,
                    val,
                };
            }
        } else {
            val += ones_value(order, len, run);
            len += run + 1;
            run = 0;
        }
    }
    Next::Rest { len, val, run }
}
