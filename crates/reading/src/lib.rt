// What every reader of a Fibonacci encoding shares: an encoding that is not too long, the number of a codeword that ends, and the padding.
#![tactic(auto)]

ghost use Rattle.std.specs.Prelude.{◌≡◌, ◌^◌, ◌≤◌, ◌<◌, length, MatchResult};
ghost use Rattle.calls.specs.declared.Refusal.TheVariants.{TooManyBytes};
ghost use Rattle.calls.specs.Limits.{max_bytes};
ghost use Rattle.reading.specs.Leaves.{NumberOf, is_padding};

use calls::Refusal;
use fibonacci::Order;

// An encoding that is not too long, to be read by an order, and with numbers up to a limit.
#[derive(Clone, Copy)]
pub struct Encoding<'a> {
    pub order: Order,
    pub bytes: &'a [u8],
    pub limit: u32,
    ghost short: { length bytes.now ≤ max_bytes },
}

impl<'a> Encoding<'a> {
    // The check of an encoding's length.
    pub fn new(order: Order, bytes: &'a [u8], limit: u32) -> Result<Encoding<'a>, Refusal>
        ensures { MatchResult result (λ e. (e.order ≡ order) × (e.bytes.now ≡ bytes.now) × (e.limit ≡ limit)) (λ r. (r ≡ TooManyBytes) × (max_bytes < length bytes.now)) }
    {
        if bytes.len() > calls::MAX_BYTES {
            return Err(Refusal::TooManyBytes);
        }
        Ok(Encoding {
            order,
            bytes,
            limit,
        })
    }
}

// The number of a codeword by the bits before its last ones and their value; 0 where it is above 4,294,967,295 by its length alone. Requires: a value below 2^63,
// which the readers show: each bit or byte of an encoding adds little to a value.
pub fn number(order: Order, len: usize, val: u64) -> u64
    requires { val < 2 ^ 63 }
    ensures { NumberOf order.m len val result }
{
    let least = order.first_number(len);
    if least == 0 { 0 } else { least + val }
}

// Whether pending bits are padding: fewer than 8, and no one among them, which would count in their value or in the ones at their end.
pub fn is_padding(len: usize, val: u64, run: usize) -> bool
    ensures { result ≡ is_padding len val run }
{
    len < 8 && (val == 0 && run == 0)
}
