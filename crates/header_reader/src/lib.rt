// The header of an encoding that comes without one.
#![tactic(auto)]

ghost use Rattle.std.specs.Prelude.{◌≡◌};
ghost use Rattle.header_reader.specs.Reading.{read_header};

use calls::Refusal;
use fibonacci::Order;
use headers::Header;

// Reads an encoding for its header.
pub fn read(order: usize, s: &[u8]) -> Result<Header, Refusal>
    ensures { result ≡ read_header order s.now }
{
    let order = Order::new(order)?;
    let told = decoder::sum_span(order, s, calls::MAX_NUMBER, 0, 0)?;
    Ok(Header {
        bits: told.bits,
        count: told.count,
        total: told.all,
    })
}
