// The two functions that the loom's host, written in C, calls on its own buffers. `include/leadginger.h` declares them.
#![tactic(auto)]

ghost use Rattle.std.specs.Prelude.{◌≡◌, ◌≤◌, length, Err};
ghost use Rattle.calls.specs.Refusals.{reason};
ghost use Rattle.calls.specs.Limits.{max_count};
ghost use Rattle.totals.specs.Totals.{total};
ghost use Rattle.table_decoder.specs.Reading.{read_bytes, read_bytes_into};
ghost use Rattle.host.specs.Host.{host_number};

use calls::Refusal;

// The host's number for a refusal. Requires: a place of at most 4,096; no refusal of the two functions has a larger one.
fn number_of(r: Refusal) -> u64
    requires { (reason r).1 ≤ max_count }
    ensures { result ≡ host_number (Err r) }
{
    let (number, place) = r.reason();
    if number == 7 {
        7 + 32 * place as u64
    } else {
        number
    }
}

// The table decoder: the encoding `s` of order 3, each number of its row into four bytes of `out`, the lowest first.
#[unsafe(no_mangle)]
pub extern "C" fn leadginger_read(s: &[u8], out: &mut [u8]) -> u64
    ensures value { result ≡ host_number (read_bytes s.now (length out.old)) }
    ensures out_after { out.new ≡ read_bytes_into s.now out.old }
{
    match table_decoder::read_bytes(s, out) {
        Ok(count) => 32 * count as u64,
        Err(r) => number_of(r),
    }
}

// The span total: the numbers from place a up to but without place b of the encoding `s`.
#[unsafe(no_mangle)]
pub extern "C" fn leadginger_total(order: usize, s: &[u8], a: usize, b: usize) -> u64
    ensures { result ≡ host_number (total order s.now a b) }
{
    match totals::total(order, s, a, b) {
        Ok(total) => 32 * total,
        Err(r) => number_of(r),
    }
}
