// Totals of the numbers of an encoding of order 2 to 6: of a span, and of the row repeated.
#![tactic(auto)]

ghost use Rattle.std.specs.Prelude.{◌≡◌};
ghost use Rattle.totals.specs.Totals.{total, repeated_total};

use calls::Refusal;
use fibonacci::Order;

// The total of the numbers from place a up to but without place b.
pub fn total(order: usize, s: &[u8], a: usize, b: usize) -> Result<u64, Refusal>
    ensures { result ≡ total order s.now a b }
{
    let order = Order::new(order)?;
    let told = decoder::sum_span(order, s, calls::MAX_NUMBER, a, b)?;
    if a > b {
        return Err(Refusal::BadSpan);
    }
    if b > told.count {
        return Err(Refusal::BadSpan);
    }
    Ok(told.total)
}

// The total of the row repeated so many times, where what each repeat shares with the next counts once.
pub fn repeated_total(order: usize, s: &[u8], repeats: u64, shared: u64) -> Result<u64, Refusal>
    ensures { result ≡ repeated_total order s.now repeats shared }
{
    let order = Order::new(order)?;
    let told = decoder::sum_span(order, s, calls::MAX_NUMBER, 0, 0)?;
    if repeats == 0 || repeats > 10000 {
        return Err(Refusal::BadRepeats);
    }
    let once = told.all;
    if shared > once {
        return Err(Refusal::TooMuchShared);
    }
    // what a further repeat adds
    let more = once - shared;
    Ok(once + (repeats - 1) * more)
}
