// An encoding of order 3 scanned byte by byte, by a table of 768 rows.
#![tactic(auto)]

ghost use Rattle.std.specs.Prelude.{◌≡◌, ◌∷◌, [], ◌≤◌, ◌<◌, OnOk};
ghost use Rattle.std.proofs.lemmas.List.Edits.{sets};
ghost use Rattle.calls.specs.Limits.{is_number, max_count};
ghost use Rattle.calls.specs.Leaves.{Scanned};
ghost use Rattle.calls.specs.Reading.{contents};
ghost use Rattle.reading.specs.Reading.{fibonacci};
ghost use Rattle.table_scan.specs.Leaves.{after, judged, stored, fault_at};

use byte_table::Row;
use calls::Refusal;
use reading::Encoding;

// The first number that a byte ends goes to place 4,095 at most, and two more may follow it.
pub const ROOM: usize = 4098;

// What is pending after a byte: `len` bits up to the last zero, or at least so many where `len` is 37, their value, and where the rows for the next byte begin:
// 256 for each one after them. No codeword with 37 bits or more before its last ones has a legal number, so that it does not matter how many more they are.
#[derive(Clone, Copy)]
struct Pending {
    len: usize,
    value: u64,
    rows: usize,
}

impl Pending {
    // By how many ones come last. Requires: as few as remain of a byte, which `walk` shows.
    fn new(len: usize, value: u64, ones: usize) -> Pending
        requires { ones < 4 }
        ensures { result ≡ after (record { len = len; value = value; ones = ones }) }
    {
        Pending {
            len,
            value,
            rows: 256 * ones,
        }
    }
}

// Why a codeword is refused whose number fails its check, by its place.
fn fault(place: usize) -> Refusal
    ensures { result ≡ fault_at place }
{
    if place >= calls::MAX_COUNT {
        Refusal::TooManyCodewords
    } else {
        Refusal::TooLarge(place)
    }
}

// The check of the numbers that a byte ends, from a place on; the first at fault decides. Those after the first are 15 at most, so that only a small limit
// refuses them. Requires: a place of a row, or the next one, which `store` shows.
fn judge(place: usize, first: u64, second: u32, third: u32, limit: u32) -> Result<(), Refusal>
    requires { place ≤ max_count }
    ensures { result ≡ judged place (is_number limit first) second third limit }
{
    if !calls::is_number(first, u64::from(limit)) {
        return Err(fault(place));
    }
    if second > limit {
        return Err(fault(place + 1));
    }
    if third > limit {
        return Err(fault(place + 2));
    }
    Ok(())
}

// Three numbers from element i on, one by one: copied from an array of the three, they would go over the stack first. Requires: a place of a row, which `store`
// requires.
fn put(row: &mut [u32; ROOM], i: usize, first: u32, second: u32, third: u32)
    requires { i < max_count }
    ensures { row.new ≡ sets row.old i (first ∷ second ∷ third ∷ []) }
{
    row[i] = first;
    row[i + 1] = second;
    row[i + 2] = third;
}

// The numbers that a byte ends, checked, and stored from place `count` on: how many there are then. Requires: a row that is not full, which `walk` checks, and
// as few more numbers as end in a byte, which it shows.
#[tactic(auto, using(crate::proofs::Refusing::judged_legal))]
fn store(
    row: &mut [u32; ROOM],
    count: usize,
    first: u64,
    r: Row,
    limit: u32,
) -> Result<usize, Refusal>
    requires { (count < max_count) × (r.count ≤ 3) }
    ensures answer { result ≡ stored count (is_number limit first) r limit }
    ensures list { OnOk result (row.new ≡ sets row.old count (first ∷ r.second ∷ r.third ∷ [])) }
{
    judge(count, first, r.second, r.third, limit)?;
    put(row, count, first as u32, r.second, r.third);
    let next = count + r.count;
    if next > calls::MAX_COUNT {
        return Err(Refusal::TooManyCodewords);
    }
    Ok(next)
}

// The scan after the check of the length, byte by byte. Requires: order 3, which the table decoder hands over.
pub fn walk(encoding: Encoding, row: &mut [u32; ROOM]) -> Result<usize, Refusal>
    requires { encoding.order.m ≡ 3 }
    ensures { Scanned (contents (fibonacci 3) encoding.entry.limit encoding.entry.bytes.now) result row.new }
{
    let mut count: usize = 0;
    let mut pending = Pending::new(0, 0, 0);
    for &byte in encoding.bytes {
        let r = byte_table::look_up(pending.rows + usize::from(byte));
        let len = pending.len + r.len;
        let value = pending.value + r.moved(pending.len);
        if r.count == 0 {
            pending = Pending::new(len.min(37), value, r.rest.ones);
        } else {
            if count == calls::MAX_COUNT {
                return Err(Refusal::TooManyCodewords);
            }
            let first = reading::number(encoding.order, len, value);
            count = store(row, count, first, r, encoding.limit)?;
            pending = Pending::new(r.rest.len, r.rest.value, r.rest.ones);
        }
    }
    if !reading::is_padding(pending.len, pending.value, pending.rows) {
        return Err(Refusal::BadRest);
    }
    Ok(count)
}
