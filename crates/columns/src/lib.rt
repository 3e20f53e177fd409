// Decimal numbers as text in columns: printed right-justified, and read.
#![tactic(auto)]

ghost use Rattle.std.specs.Prelude.{◌≡◌, ◌+◌, ◌-◌, ◌≤◌, length};
ghost use Rattle.std.proofs.lemmas.List.Edits.{sets};
ghost use Rattle.columns.specs.Columns.{digit, leader, column, decimal};

// The last digit of a number.
fn digit(n: u64) -> u8
    ensures { result ≡ digit n }
{
    b'0' + (n % 10) as u8
}

// A column in front of digits: the last digit of what is left of the number, or a space where nothing is.
#[tactic(auto, unfolding(crate::specs::Columns::leader))]
fn leader(k: u64) -> u8
    ensures { result ≡ leader k }
{
    if k == 0 { b' ' } else { digit(k) }
}

// n in so many columns of a buffer, from byte `at` on, column by column from the right. Requires: there is room, which
// whoever prints has checked.
#[tactic(auto, using(crate::proofs::Columns::leading_none, crate::proofs::Columns::column_last), unfolding(crate::specs::Columns::column))]
pub fn put(out: &mut [u8], at: usize, width: usize, n: u64)
    requires { at + width ≤ length out.old }
    ensures { out.new ≡ sets out.old at (column width n) }
{
    if width == 0 {
        return;
    }
    let last = at + width - 1;
    out[last] = digit(n);
    let mut left = n / 10;
    for i in (at..last).rev() {
        out[i] = leader(left);
        left /= 10;
    }
}

// A text in a buffer, from byte `at` on. Requires: there is room, which whoever prints has checked.
#[tactic(auto, using(crate::proofs::Columns::text_put))]
pub fn put_text(out: &mut [u8], at: usize, text: &[u8])
    requires { at + length text.now ≤ length out.old }
    ensures { out.new ≡ sets out.old at text.now }
{
    out[at..at + text.len()].copy_from_slice(text);
}

// The number that a text gives as decimal digits; a byte below the digit 0, as a space, counts as 0. Requires: at most 10 columns, which whoever reads a column
// knows.
#[tactic(auto, using(crate::proofs::Columns::counted_none, crate::proofs::Columns::counted_few, crate::proofs::Columns::counted_end))]
pub fn decimal(text: &[u8]) -> u64
    requires { length text.now ≤ 10 }
    ensures { result ≡ decimal text.now }
{
    let mut n: u64 = 0;
    for &b in text {
        n = 10 * n + u64::from(b.saturating_sub(b'0'));
    }
    n
}
