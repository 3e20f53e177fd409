// Writing a row as its encoding of order 2 to 6.
#![tactic(auto)]

ghost use Rattle.std.specs.Prelude.{◌≡◌, ◌≤◌, length};
ghost use Rattle.calls.specs.declared.Refusal.TheVariants.{BadNumber};
ghost use Rattle.calls.specs.Limits.{max_number, max_count, check_each};
ghost use Rattle.headers.specs.Headers.{header_of};
ghost use Rattle.encoder.specs.Writing.{write, WritePromise};

use calls::Refusal;
use fibonacci::Order;
use headers::Header;

// The header of a row, if each of its numbers can be written. Requires: a row that is not too long, which `plan` checks.
fn measure(order: Order, row: &[u32]) -> Result<Header, Refusal>
    requires { length row.now ≤ max_count }
    ensures { result ≡ check_each BadNumber max_number 0 row.now (Ok (header_of order.m row.now)) }
{
    let mut bits: usize = 0;
    let mut total: u64 = 0;
    for (i, &n) in row.iter().enumerate() {
        let n = u64::from(n);
        if !calls::is_number(n, u64::from(calls::MAX_NUMBER)) {
            return Err(Refusal::BadNumber(i));
        }
        bits += codewords::bit_length(order, n);
        total += n;
    }
    Ok(Header {
        bits,
        count: row.len(),
        total,
    })
}

// What writing a row to an output of so many bytes answers: all that is to be decided before the output may be touched.
fn plan(order: Order, row: &[u32], room: usize) -> Result<(usize, Header), Refusal>
    ensures { result ≡ write order.m row.now room }
{
    if row.len() > calls::MAX_COUNT {
        return Err(Refusal::TooManyNumbers);
    }
    let header = measure(order, row)?;
    let bytes = header.bytes();
    if room < bytes {
        return Err(Refusal::NoRoom);
    }
    Ok((bytes, header))
}

// Writes a row.
pub fn write(order: usize, row: &[u32], out: &mut [u8]) -> Result<(usize, Header), Refusal>
    ensures { WritePromise order row.now out.old result out.new }
{
    let order = Order::new(order)?;
    let (bytes, header) = plan(order, row, out.len())?;
    codeword_writer::put_row(out, bytes, order, row);
    Ok((bytes, header))
}
