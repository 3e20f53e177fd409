// The lines of a row's listing (paper 01, "The listing"), put into a buffer.
#![tactic(auto)]

ghost use Rattle.std.specs.Prelude.{◌≡◌, ◌+◌, ◌*◌, ◌≤◌, length};
ghost use Rattle.std.proofs.lemmas.List.Edits.{sets};
ghost use Rattle.calls.specs.Limits.{Legal, max_number, max_count};
ghost use Rattle.listing_lines.specs.Lines.{row_line, row_lines, lines};

use fibonacci::Order;

// A number's line, from byte `at` on. Requires: there is room, as for all of the lines.
#[tactic(auto, using(crate::proofs::Lines::line_put))]
fn put_line(out: &mut [u8], at: usize, place: u64, n: u64, bits: u64, total: u64)
    requires { at + 38 ≤ length out.old }
    ensures { out.new ≡ sets out.old at (row_line place n bits total) }
{
    columns::put(out, at, 5, place);
    columns::put(out, at + 5, 11, n);
    columns::put(out, at + 16, 5, bits);
    columns::put(out, at + 21, 16, total);
    columns::put_text(out, at + 37, b"\n");
}

// The lines of a row, after the header. Requires: what `put_lines` requires.
#[tactic(auto, using(crate::proofs::Lines::legal_positive, crate::proofs::Lines::legal_small))]
fn put_rows(out: &mut [u8], order: Order, row: &[u32])
    requires { (length row.now ≤ max_count) × Legal max_number row.now × (38 + 38 * length row.now ≤ length out.old) }
    ensures { out.new ≡ sets out.old 38 (row_lines order.m 0 0 row.now) }
{
    let mut total: u64 = 0;
    for (i, &n) in row.iter().enumerate() {
        let n = u64::from(n);
        let bits = codewords::bit_length(order, n);
        total += n;
        put_line(out, 38 + 38 * i, i as u64, n, bits as u64, total);
    }
}

// The whole listing of a row. Requires: a legal row, and room for the listing, which the listing program's text checks.
#[tactic(auto, using(crate::proofs::Lines::lines_put))]
pub fn put_lines(out: &mut [u8], order: Order, row: &[u32], bytes: usize)
    requires { (length row.now ≤ max_count) × Legal max_number row.now × (55 + 38 * length row.now ≤ length out.old) }
    ensures { out.new ≡ sets out.old 0 (lines order.m row.now bytes) }
{
    columns::put_text(out, 0, b"PLACE     NUMBER BITS           TOTAL\n");
    put_rows(out, order, row);
    let at = 38 + 38 * row.len();
    columns::put_text(out, at, b"BYTES");
    columns::put(out, at + 5, 11, bytes as u64);
    columns::put_text(out, at + 16, b"\n");
}
