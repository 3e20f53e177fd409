// Reading an encoding of order 2 to 6: by words as far as they go, and then codeword by codeword; and what totals, headers and replacing want to know of it.
#![tactic(auto)]

ghost use Rattle.std.specs.Prelude.{◌≡◌, ◌*◌, ◌≤◌, min, length, Ok};
ghost use Rattle.bits.specs.Bits.{unpack};
ghost use Rattle.calls.specs.Calls.{and_then};
ghost use Rattle.calls.specs.Limits.{max_count};
ghost use Rattle.calls.specs.Reading.{decode};
ghost use Rattle.calls.specs.Leaves.{Scanned};
ghost use Rattle.word_decoder.specs.Leaves.{summary, Spanned, StoredRow};
ghost use Rattle.reading.specs.Reading.{fibonacci, ReadPromise};
ghost use Rattle.decoder.specs.Leaves.{Leads};

use bit_decoder::Next;
use calls::Refusal;
use fibonacci::Order;
use reading::Encoding;
pub use word_decoder::Summary;
use word_decoder::{Part, Progress, Span};

// From this many bytes on, words are faster than bits, in spite of the table that they need.
const WORDS_FROM: usize = 17;

// What stands from a bit on, after so many numbers: a number and the bit after its codeword, or the end of the row. 4 is checked before 7, and 6 where no
// codeword is left. Requires: a bit within the bytes or at their end, which `store_row` and `sum_span` show.
fn next_number(
    encoding: Encoding,
    bit: usize,
    count: usize,
) -> Result<Option<(u64, usize)>, Refusal>
    requires { bit ≤ 8 * length encoding.bytes.now }
    ensures { let e = encoding.entry in Leads e.order.m e.limit e.bytes.now bit count result }
{
    match bit_decoder::seek(encoding.order, encoding.bytes, bit) {
        Next::Rest { len, val, run } => {
            if !reading::is_padding(len, val, run) {
                return Err(Refusal::BadRest);
            }
            Ok(None)
        }
        Next::Codeword {
            bit: after,
            len,
            val,
        } => {
            if count == calls::MAX_COUNT {
                return Err(Refusal::TooManyCodewords);
            }
            let n = reading::number(encoding.order, len, val);
            if !calls::is_number(n, u64::from(encoding.limit)) {
                return Err(Refusal::TooLarge(count));
            }
            Ok(Some((n, after)))
        }
    }
}

// The numbers that words store; none of few bytes. That they are the first of the row is enough to know: the loop behind goes on from any bit, and so stores
// all of the row.
fn store_words(encoding: Encoding, row: &mut [u32]) -> Progress
    ensures { let e = encoding.entry in StoredRow e.order.m e.limit (unpack e.bytes.now) row.old row.new result }
{
    if encoding.bytes.len() < WORDS_FROM {
        return Progress { bit: 0, count: 0 };
    }
    word_decoder::take_row(encoding, row)
}

// What is told of the numbers that words take; none of few bytes. As above, it is enough to know that they are the first of the row.
fn sum_words(encoding: Encoding, span: Span) -> Summary
    ensures { let e = encoding.entry in Spanned e.order.m e.limit span.from span.to (unpack e.bytes.now) result }
{
    if encoding.bytes.len() < WORDS_FROM {
        return Summary::empty();
    }
    word_decoder::take_span(encoding, span)
}

// Stores the row of an encoding in a list. Requires: room for every row that so many bytes can hold, as no codeword is shorter than two bits, which each
// operation shows.
pub fn store_row(order: Order, s: &[u8], limit: u32, row: &mut [u32]) -> Result<usize, Refusal>
    requires { min max_count (4 * length s.now) ≤ length row.old }
    ensures { Scanned (decode (fibonacci order.m) limit s.now) result row.new }
{
    let encoding = Encoding::new(order, s, limit)?;
    let mut at = store_words(encoding, row);
    while let Some((n, bit)) = next_number(encoding, at.bit, at.count)? {
        row[at.count] = n as u32;
        at = Progress {
            bit,
            count: at.count + 1,
        };
    }
    Ok(at.count)
}

// What is told of the row of an encoding and of a span of it, from one place up to but without another; the row itself goes nowhere.
pub fn sum_span(
    order: Order,
    s: &[u8],
    limit: u32,
    from: usize,
    to: usize,
) -> Result<Summary, Refusal>
    ensures { result ≡ and_then (decode (fibonacci order.m) limit s.now) (λ row. Ok (summary order.m from to row)) }
{
    let encoding = Encoding::new(order, s, limit)?;
    let span = Span { from, to };
    let mut told = sum_words(encoding, span);
    while let Some((n, bits)) = next_number(encoding, told.bits, told.count)? {
        let number = Part {
            count: 1,
            bits,
            sum: n,
        };
        told = told.with(span, number);
    }
    Ok(told)
}

// Reads an encoding. The row goes to a list of its own first, as a refusal must leave the output as it was. 16 bytes hold at most 64 numbers; a list of zeros
// for 4,096 takes longer to make than a few bytes take to read.
pub fn read(order: usize, s: &[u8], out: &mut [u32]) -> Result<usize, Refusal>
    ensures { ReadPromise order s.now out.old result out.new }
{
    let order = Order::new(order)?;
    if s.len() <= 16 {
        let mut few: [u32; 64] = [0; 64];
        let count = store_row(order, s, calls::MAX_NUMBER, &mut few)?;
        return calls::deliver(&few[..count], out);
    }
    let mut row: [u32; calls::MAX_COUNT] = [0; calls::MAX_COUNT];
    let count = store_row(order, s, calls::MAX_NUMBER, &mut row)?;
    calls::deliver(&row[..count], out)
}
