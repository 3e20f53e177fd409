// The listing of a row (paper 01, "The listing"), from the bytes of the input to those of the output.
#![tactic(auto)]

ghost use Rattle.std.specs.Prelude.{◌≡◌, Ok, Err, IfOk, IfErr};
ghost use Rattle.calls.specs.Refusals.{reason};
ghost use Rattle.calls.specs.Limits.{max_bytes};
ghost use Rattle.headers.specs.declared.Header.{Header};
ghost use Rattle.encoder.specs.Writing.{write};
ghost use Rattle.listing_text.specs.Listing.{refusal_line, listing_of, printed, text, Puts};

use calls::Refusal;
use fibonacci::Order;

// How many bytes a text has at most.
pub const MAX_TEXT_BYTES: usize = 155703;

// The line of a refusal.
fn refuse(out: &mut [u8], r: Refusal) -> Result<usize, Refusal>
    ensures { Puts (refusal_line (reason r).0) out.old result out.new }
{
    if out.len() < 8 {
        return Err(Refusal::NoRoom);
    }
    let (number, _) = r.reason();
    columns::put_text(out, 0, b"NO");
    columns::put(out, 2, 5, number);
    columns::put_text(out, 7, b"\n");
    Ok(8)
}

// The order, and how many bytes the encoding of a row has; or the refusal of writing it. The row is written to a buffer of its own.
#[tactic(auto, using(crate::proofs::Answering::write_order))]
fn encoded(order: usize, row: &[u32]) -> Result<(Order, usize), Refusal>
    ensures accepted { IfOk result (λ w. (w.0.m ≡ order) × ((h : Header) × (write order row.now max_bytes ≡ Ok (w.1, h)))) }
    ensures refused { IfErr result (λ r. write order row.now max_bytes ≡ Err r) }
{
    let mut encoding = [0u8; calls::MAX_BYTES];
    let order = Order::new(order)?;
    let (bytes, _) = encoder::write(order.m(), row, &mut encoding)?;
    Ok((order, bytes))
}

// The listing of a row, or the line of the refusal of writing it.
#[tactic(auto, using(crate::proofs::Answering::list_few, crate::proofs::Answering::list_legal))]
fn list(order: usize, row: &[u32], out: &mut [u8]) -> Result<usize, Refusal>
    ensures { Puts (printed (listing_of order row.now)) out.old result out.new }
{
    let (order, bytes) = match encoded(order, row) {
        Ok(w) => w,
        Err(r) => return refuse(out, r),
    };
    let size = 55 + 38 * row.len();
    if out.len() < size {
        return Err(Refusal::NoRoom);
    }
    listing_lines::put_lines(out, order, row, bytes);
    Ok(size)
}

// The text that the listing program prints for an input, in a lent buffer: how many bytes it has. The one refusal of this call is that the buffer is shorter.
pub fn listing(input: &[u8], out: &mut [u8]) -> Result<usize, Refusal>
    ensures { Puts (text input.now) out.old result out.new }
{
    if input.len() > listing_input::MAX_INPUT_BYTES {
        return refuse(out, Refusal::TooMuchInput);
    }
    let mut numbers = [0u32; listing_input::LINES];
    match listing_input::parse(input, &mut numbers) {
        Err(r) => refuse(out, r),
        Ok(count) => list(numbers[0] as usize, &numbers[1..count], out),
    }
}
