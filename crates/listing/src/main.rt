// The listing program (paper 01, "The listing"): reads standard input to its end, and prints the listing or the refusal. What it prints is
// `listing_text::listing`'s.
#![tactic(auto)]

ghost use Rattle.std.specs.Prelude.{◌≡◌, ◌≤◌, length, take, IfSome};
ghost use Rattle.listing_text.specs.Listing.{text, max_text_bytes};
ghost use Rattle.listing.specs.Leaves.{bytes_read, IsRead};

use std::io;
use std::io::Read;

// One byte more than an input may have: who has read so many knows that there are too many.
const READ_BYTES: usize = 45068;

// Reads until the input ends or the buffer is full, whatever the sizes of the reads: how many bytes of the buffer are the input's. An input that cannot be read
// does not pass as one that has ended. Of a reader whose bytes a contract can name none is missed; which bytes standard input has no contract can say, so there
// it is tested.
#[tactic(auto, using(crate::proofs::Reading::read_more))]
fn read<R: Read>(input: &mut R, buf: &mut [u8]) -> io::Result<usize>
    ensures count { bytes_read result ≤ length buf.new }
    ensures bytes { IfSome (R.remaining input.old) (λ xs. IsRead result xs buf.new) }
{
    let mut n: usize = 0;
    while n < buf.len() {
        let more = input.read(&mut buf[n..])?;
        if more == 0 {
            break;
        }
        n += more;
    }
    Ok(n)
}

// The text for an input. Requires: a buffer that has room for every text, as the program's has.
fn print(input: &[u8], out: &mut [u8; listing_text::MAX_TEXT_BYTES]) -> usize
    requires { length out.old ≡ max_text_bytes }
    ensures text { take result out.new ≡ text input.now }
    ensures size { result ≤ max_text_bytes }
    ensures room { length out.new ≡ max_text_bytes }
{
    listing_text::listing(input, out).unwrap()
}

// Where standard error takes nothing either, there is nobody to tell.
fn complain(rt: &impl Eprint, message: &str) {
    let _ = rt.eprintln(message);
}

fn main(rt: HostRuntime) {
    let mut buf = [0u8; READ_BYTES];
    let Ok(n) = read(&mut rt.stdin(), &mut buf) else {
        return complain(&rt, "listing: the input cannot be read");
    };
    let mut out = [0u8; listing_text::MAX_TEXT_BYTES];
    let size = print(&buf[..n], &mut out);
    if rt.write_all(&out[..size]).is_err() {
        complain(&rt, "listing: the output cannot be written");
    }
}
