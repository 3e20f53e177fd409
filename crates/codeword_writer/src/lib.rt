// The codewords of a row of order 2 to 6 put into a buffer.
#![tactic(auto)]

ghost use Rattle.std.specs.Prelude.{◌≡◌, ◌≤◌, length};
ghost use Rattle.bits.specs.Bits.{unpack, byte_count};
ghost use Rattle.bits.specs.Leaves.{put_at};
ghost use Rattle.calls.specs.Limits.{Legal, max_number, max_count};
ghost use Rattle.fibonacci.specs.Encoding.{row_bits};

use fibonacci::Order;

// The codewords of a row from the front of a buffer. While eight of their bytes are left, a codeword is put over all eight: what stands behind it is written later.
// Requires: a legal row whose encoding has so many bytes, for which there is room; writing checks these.
pub fn put_row(out: &mut [u8], bytes: usize, order: Order, row: &[u32])
    requires count { length row.now ≤ max_count }
    requires legal { Legal max_number row.now }
    requires bytes_are { bytes ≡ byte_count (length (row_bits order.m row.now)) }
    requires within { bytes ≤ length out.old }
    ensures { unpack out.new ≡ put_at 0 (row_bits order.m row.now) (unpack out.old) }
{
    let mut at: usize = 0;
    for &n in row {
        let word = codewords::codeword(order, u64::from(n));
        let k = at / 8;
        if k + 8 <= bytes {
            bit_writer::put_over(&mut out[k..], at % 8, word);
        } else {
            bit_writer::put_word(&mut out[k..], at % 8, word);
        }
        at += word.len;
    }
}
