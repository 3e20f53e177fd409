// Words of 64 bits of an encoding of order 2 to 6: where codewords end in them, and their numbers.
#![tactic(auto)]

ghost use Rattle.std.specs.Prelude.{◌≡◌, ◌*◌, ◌≤◌, length};
ghost use Rattle.bits.specs.Bits.{unpack};
ghost use Rattle.calls.specs.Limits.{max_number};
ghost use Rattle.word_windows.specs.Leaves.{body_number, ExactIfLegal, RunStarts, LoadedWindow};

use digit_values::Body;
use fibonacci::Order;

// The next bits of an encoding, the first on top, and where in them as many ones as the order begin.
#[derive(Clone, Copy)]
pub struct Window {
    pub left: u64,
    pub starts: u64,
}

// Where as many ones in a row as the order begin in a word: a one at each such place. j ones that begin here and again k ≤ j places on are j + k ones.
fn run_starts(order: Order, w: u64) -> u64
    ensures { RunStarts order.m w result }
{
    let m = order.m();
    let two = w & w << 1;
    if m == 2 {
        return two;
    }
    if m <= 4 {
        return two & two << (m / 2);
    }
    let four = two & two << 2;
    four & four << (m - 4)
}

// The window from a bit on; an empty one where fewer than eight bytes are left from the byte of that bit on. Requires: a bit within the bytes or at their end,
// which the word decoder shows.
pub fn window_at(order: Order, s: &[u8], bit: usize) -> Window
    requires { bit ≤ 8 * length s.now }
    ensures { LoadedWindow order.m (unpack s.now) bit result }
{
    let q = bit >> 3;
    if s.len() < q + 8 {
        return Window { left: 0, starts: 0 };
    }
    let left = bits::word_at(s, q) << (bit & 7);
    Window {
        left,
        starts: run_starts(order, left),
    }
}

// The number of the codeword with these bits before its last ones. Where it is above 4,294,967,295, what is returned is so too, or 0.
#[tactic(auto, using(crate::proofs::Found::looked_up))]
pub fn number(order: Order, body: Body) -> u64
    ensures is { ExactIfLegal (body_number order.m body.word body.len) result }
    ensures few { result ≤ 7 * max_number }
{
    if body.len <= 9 {
        return order.first_number(body.len) + body.byte_value(order);
    }
    let least = order.first_number(body.len);
    if least == 0 {
        return 0;
    }
    least + body.value(order)
}
