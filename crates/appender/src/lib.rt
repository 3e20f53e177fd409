// Appending a number to an encoding of order 2 to 6, by its header.
#![tactic(auto)]

ghost use Rattle.appender.specs.Appending.{AppendPromise};
ghost use Rattle.appender.specs.Leaves.{Plans};

use bits::Word;
use calls::Refusal;
use fibonacci::Order;
use headers::Header;

// All that is decided before a buffer of so many bytes may be touched: the codeword to be put after the bits in use, and the header afterwards.
#[tactic(auto, using(crate::proofs::Appending::checks), unfolding(crate::specs::Appending::append))]
fn plan(order: Order, room: usize, header: Header, n: u64) -> Result<(Word, Header), Refusal>
    ensures { Plans order.m room header n result }
{
    if header.is_bad(room) {
        return Err(Refusal::BadHeader);
    }
    if !calls::is_number(n, u64::from(calls::MAX_NUMBER)) {
        return Err(Refusal::BadNumber(0));
    }
    if header.count >= calls::MAX_COUNT {
        return Err(Refusal::FullRow);
    }
    let word = codewords::codeword(order, n);
    let bits = header.bits + word.len;
    if bits > headers::capacity(room) {
        return Err(Refusal::NoRoom);
    }
    let longer = Header {
        bits,
        count: header.count + 1,
        total: header.total + n,
    };
    Ok((word, longer))
}

// Appends a number after the bits in use: its codeword goes to the part of the buffer from the byte with the first free bit on. The encoding is not read.
pub fn append(
    order: usize,
    buf: &mut [u8],
    header: Header,
    n: u32,
) -> Result<(usize, Header), Refusal>
    ensures { AppendPromise order buf.old header n result buf.new }
{
    let order = Order::new(order)?;
    let (word, longer) = plan(order, buf.len(), header, u64::from(n))?;
    let at = header.bits;
    bit_writer::put_word(&mut buf[at / 8..], at % 8, word);
    Ok((longer.bytes(), longer))
}
