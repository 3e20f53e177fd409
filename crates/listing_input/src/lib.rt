// The listing program's input (paper 01, "The listing"): lines with a number each, the first the order and the others the row.
#![tactic(auto)]

ghost use Rattle.std.specs.Prelude.{◌≡◌, ◌≤◌, length};
ghost use Rattle.std.specs.Str.{bytes_eq};
ghost use Rattle.calls.specs.Leaves.{Scanned};
ghost use Rattle.fibonacci.specs.Leaves.{number_or_zero};
ghost use Rattle.listing_input.specs.Input.{input_line, max_input_bytes};
ghost use Rattle.listing_input.specs.Leaves.{parsed};

use calls::Refusal;

// How many bytes an input has at most, and a line of it; how many lines that makes.
pub const MAX_INPUT_BYTES: usize = 45067;

pub const LINE: usize = 11;

pub const LINES: usize = 4097;

// A line is that of the number n: the line is printed anew and compared.
fn is_line(line: &[u8], n: u64) -> bool
    ensures { result ≡ bytes_eq line.now (input_line n) }
{
    let mut good = [b'\n'; LINE];
    columns::put(&mut good, 0, 10, n);
    line == good.as_slice()
}

// A number as one of 32 bits; one above 4,294,967,295 as 0, which is no order and no number of a row either.
#[tactic(auto, unfolding(fibonacci::specs::Leaves::number_or_zero))]
fn clip(n: u64) -> u32
    ensures { result ≡ number_or_zero n }
{
    u32::try_from(n).unwrap_or(0)
}

// The numbers of an input, as far as they have 32 bits, at the front of a list: how many. Refused is an input with a line of another form, or with none; then the
// list may hold anything, and the listing looks at none of it. Requires: an input that is not too long, which the listing checks.
#[tactic(auto, using(crate::proofs::Input::parsed_none))]
pub fn parse(input: &[u8], numbers: &mut [u32; LINES]) -> Result<usize, Refusal>
    requires { length input.now ≤ max_input_bytes }
    ensures found { Scanned (parsed input.now) result numbers.new }
    ensures list { length numbers.new ≡ LINES }
{
    if input.is_empty() || input.len() % LINE != 0 {
        return Err(Refusal::BadLine);
    }
    for (i, line) in input.chunks_exact(LINE).enumerate() {
        let n = columns::decimal(&line[..10]);
        if !is_line(line, n) {
            return Err(Refusal::BadLine);
        }
        numbers[i] = clip(n);
    }
    Ok(input.len() / LINE)
}
