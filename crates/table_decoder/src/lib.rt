// Reading an encoding of order 3 byte by byte, by a table of 768 rows.
#![tactic(auto)]

ghost use Rattle.std.specs.Prelude.{◌≡◌, ◌++◌, ◌*◌, ◌≤◌, length, drop};
ghost use Rattle.calls.specs.Leaves.{Scanned};
ghost use Rattle.calls.specs.Reading.{decode};
ghost use Rattle.reading.specs.Reading.{fibonacci};
ghost use Rattle.table_decoder.specs.Reading.{ReadTablePromise, row_bytes, ReadBytesPromise};

use calls::Refusal;
use fibonacci::Order;
use reading::Encoding;
use table_scan::ROOM;

// The scan of an encoding, whose numbers go up to a limit: its checks, and how many numbers the row has. The row goes to a list of the caller's own.
#[tactic(auto, unfolding(calls::specs::Limits::is_order))]
fn scan_into(s: &[u8], limit: u32, row: &mut [u32; ROOM]) -> Result<usize, Refusal>
    ensures { Scanned (decode (fibonacci 3) limit s.now) result row.new }
{
    let order = Order::new(3).unwrap();
    table_scan::walk(Encoding::new(order, s, limit)?, row)
}

// Reads an encoding of order 3. The row goes to a list of its own first, as a refusal must leave the output as it was.
pub fn read(s: &[u8], out: &mut [u32]) -> Result<usize, Refusal>
    ensures { ReadTablePromise s.now out.old result out.new }
{
    let mut row: [u32; ROOM] = [0; ROOM];
    let count = scan_into(s, calls::MAX_NUMBER, &mut row)?;
    calls::deliver(&row[..count], out)
}

// A row as bytes over those of a buffer, each number as four, the lowest first. Requires: room for them, which `read_bytes` checks.
#[tactic(auto, using(crate::proofs::Answering::bytes_none, crate::proofs::Answering::bytes_more))]
fn put_row(out: &mut [u8], row: &[u32])
    requires { 4 * length row.now ≤ length out.old }
    ensures { out.new ≡ row_bytes row.now ++ drop (4 * length row.now) out.old }
{
    for (i, n) in row.iter().enumerate() {
        out[4 * i..4 * i + 4].copy_from_slice(&n.to_le_bytes());
    }
}

// Reads an encoding of order 3 for a host that takes each number as four bytes, the lowest first.
pub fn read_bytes(s: &[u8], out: &mut [u8]) -> Result<usize, Refusal>
    ensures { ReadBytesPromise s.now out.old result out.new }
{
    let mut row: [u32; ROOM] = [0; ROOM];
    let count = scan_into(s, calls::MAX_NUMBER, &mut row)?;
    if out.len() < 4 * count {
        return Err(Refusal::NoRoom);
    }
    put_row(out, &row[..count]);
    Ok(count)
}
