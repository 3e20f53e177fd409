// Writing a row in the (s, c)-dense code of bytes, s from 1 to 254 and c the rest.
#![tactic(auto)]

ghost use Rattle.std.specs.Prelude.{◌≡◌, ◌++◌, ◌+◌, ◌/◌, ◌%◌, ◌≤◌, length, take};
ghost use Rattle.calls.specs.declared.Refusal.TheVariants.{BadNumber};
ghost use Rattle.calls.specs.Limits.{max_number, max_count, check_each};
ghost use Rattle.dense.specs.Code.{codeword};
ghost use Rattle.dense.specs.Encoding.{encoding};
ghost use Rattle.dense.specs.Limits.{continuers};
ghost use Rattle.dense_encoder.specs.Writing.{write_dense, WritePromise};
ghost use Rattle.dense_encoder.specs.Leaves.{count_from, Checked};

use calls::Refusal;
use dense::Stoppers;

// ## Measuring

// The check of each number of a row.
fn check_each(row: &[u32]) -> Result<(), Refusal>
    ensures { result ≡ check_each BadNumber max_number 0 row.now (Ok tt) }
{
    let first = row.iter().position(|&n| !calls::is_number(
        u64::from(n),
        u64::from(calls::MAX_NUMBER),
    ));
    match first {
        Some(place) => Err(Refusal::BadNumber(place)),
        None => Ok(()),
    }
}

// How many numbers of a row are at least so large. Compiled, it goes without a branch, several numbers at once. Requires: a row that is not too long, which
// `plan` checks: the count has 32 bits.
fn count_from(row: &[u32], low: u32) -> u32
    requires { length row.now ≤ max_count }
    ensures { result ≡ count_from low row.now }
{
    row.iter().map(|&n| u32::from(low <= n)).sum()
}

// How many bytes the codewords of a row have: one each, and one more for each length that a number reaches; `next` is the first number of the next length,
// and `more` is how many have that length. Requires: a row that has passed its checks, which `plan` makes.
fn size(stoppers: Stoppers, row: &[u32]) -> usize
    requires { Checked row.now }
    ensures { result ≡ length (encoding stoppers.s (continuers stoppers.s) row.now) }
{
    let (s, c) = (u64::from(stoppers.s()), u64::from(stoppers.continuers()));
    let mut bytes = row.len();
    let mut next = s + 1;
    let mut more = s * c;
    while let Ok(low) = u32::try_from(next) {
        let longer = count_from(row, low);
        if longer == 0 {
            return bytes;
        }
        bytes += longer as usize;
        next += more;
        more *= c;
    }
    bytes
}

// What writing a row to an output of so many bytes answers: all that is to be decided before the output may be touched.
fn plan(stoppers: Stoppers, row: &[u32], room: usize) -> Result<usize, Refusal>
    ensures { result ≡ write_dense stoppers.s row.now room }
{
    if row.len() > calls::MAX_COUNT {
        return Err(Refusal::TooManyNumbers);
    }
    check_each(row)?;
    let bytes = size(stoppers, row);
    if room < bytes {
        return Err(Refusal::NoRoom);
    }
    Ok(bytes)
}

// ## Putting

// A number by a base, its quotient and its remainder: a division only where it is not below the base. Requires: a base from 1 up, which `put_codeword` shows
// of s and of c.
fn divide(x: u32, base: u32) -> (u32, u32)
    requires { 1 ≤ base }
    ensures { (result.0 ≡ x / base) × (result.1 ≡ x % base) }
{
    if x < base {
        (0, x)
    } else {
        (x / base, x % base)
    }
}

// The codeword of n at the end of a buffer, its last byte first; the result is where it begins. Requires: a number from 1 up, and room for its codeword, which
// `put_row` shows.
fn put_codeword(out: &mut [u8], stoppers: Stoppers, n: u32) -> usize
    requires { (1 ≤ n) × (length (codeword stoppers.s (continuers stoppers.s) n) ≤ length out.old) }
    ensures { let w = codeword stoppers.s (continuers stoppers.s) n in (result + length w ≡ length out.old) × (out.new ≡ take result out.old ++ w) }
{
    let (s, c) = (stoppers.s(), stoppers.continuers());
    let (mut y, last) = divide(n - 1, s);
    let mut at = out.len() - 1;
    out[at] = last as u8;
    while 0 < y {
        let (before, digit) = divide(y - 1, c);
        at -= 1;
        out[at] = (s + digit) as u8;
        y = before;
    }
    at
}

// The codewords of a row in a buffer, the last one first: where each begins is known only from its end. Requires: a row that has passed its checks, and a
// buffer of exactly so many bytes, which `write` sees to.
fn put_row(out: &mut [u8], stoppers: Stoppers, row: &[u32])
    requires { Checked row.now × (length out.old ≡ length (encoding stoppers.s (continuers stoppers.s) row.now)) }
    ensures { out.new ≡ encoding stoppers.s (continuers stoppers.s) row.now }
{
    let mut at = out.len();
    for &n in row.iter().rev() {
        at = put_codeword(&mut out[..at], stoppers, n);
    }
}

// Writes a row.
pub fn write(stoppers: usize, row: &[u32], out: &mut [u8]) -> Result<usize, Refusal>
    ensures { WritePromise stoppers row.now out.old result out.new }
{
    let stoppers = Stoppers::new(stoppers)?;
    let bytes = plan(stoppers, row, out.len())?;
    put_row(&mut out[..bytes], stoppers, row);
    Ok(bytes)
}
