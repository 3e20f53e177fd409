// Replacing a number of an encoding of order 2 to 6, in its buffer; and seeing what comes of it before that.
#![tactic(auto)]

ghost use Rattle.std.specs.Prelude.{◌≡◌};
ghost use Rattle.replacer.specs.Replacing.{ReplacePromise, preview};
ghost use Rattle.replacer.specs.Leaves.{Plans};

use bits::Word;
use calls::Refusal;
use fibonacci::Order;
use headers::Header;

// What is to be put into a buffer: a codeword for the bits, `old` of them, that stand at a bit; and the header afterwards.
#[derive(Clone, Copy)]
struct Replacement {
    start: usize,
    old: usize,
    word: Word,
    header: Header,
}

// The plan for a number in the place of another of the encoding in the first `used` bytes of a buffer: all that is decided before the buffer may be touched.
// (The span to be summed is the one place; where a row has no such place, any will do.)
fn plan(order: usize, buf: &[u8], used: usize, place: usize, n: u64) -> Result<Replacement, Refusal>
    ensures { Plans order buf.now used place n result }
{
    let order = Order::new(order)?;
    if used > buf.len() {
        return Err(Refusal::PastBuffer);
    }
    let next = place.saturating_add(1);
    let told = decoder::sum_span(order, &buf[..used], calls::MAX_NUMBER, place, next)?;
    if place >= told.count {
        return Err(Refusal::BadPlace);
    }
    if !calls::is_number(n, u64::from(calls::MAX_NUMBER)) {
        return Err(Refusal::BadNumber(0));
    }
    let old = codewords::bit_length(order, told.total);
    let word = codewords::codeword(order, n);
    let header = Header {
        bits: told.bits - old + word.len,
        count: told.count,
        total: told.all - told.total + n,
    };
    let x = Replacement {
        start: told.start,
        old,
        word,
        header,
    };
    if header.bytes() > buf.len() {
        return Err(Refusal::NoRoom);
    }
    Ok(x)
}

// Replaces the number at a place: its codeword goes where the old one stood, and the bits behind move.
pub fn replace(
    order: usize,
    buf: &mut [u8],
    used: usize,
    place: usize,
    n: u32,
) -> Result<(usize, Header), Refusal>
    ensures { ReplacePromise order buf.old used place n result buf.new }
{
    let x = plan(order, buf, used, place, u64::from(n))?;
    let bytes = x.header.bytes();
    bit_moves::splice(buf, used, used.max(bytes), x.start, x.old, x.word);
    Ok((bytes, x.header))
}

// The answer of the replacement, by its plan, and nothing is put.
pub fn preview(
    order: usize,
    buf: &[u8],
    used: usize,
    place: usize,
    n: u32,
) -> Result<(usize, Header), Refusal>
    ensures { result ≡ preview order buf.now used place n }
{
    let x = plan(order, buf, used, place, u64::from(n))?;
    Ok((x.header.bytes(), x.header))
}
