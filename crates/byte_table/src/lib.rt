// The table of the table decoder: what each byte, after 0, 1 or 2 ones, does to a pending codeword of order 3.
#![tactic(auto)]

ghost use Rattle.std.specs.Prelude.{◌≡◌, ◌*◌, ◌^◌, ◌<◌};
ghost use Rattle.byte_table.specs.Leaves.{two_back, moved, IsRow, Movable};

mod tables;

use tables::{POSITIONS_FROM_MINUS_TWO, ROWS};

// What remains of a byte: how many bits up to the last zero, their value, and the trailing ones after it, 2 at most.
#[derive(Clone, Copy)]
pub struct Rest {
    pub len: usize,
    pub value: u64,
    pub ones: usize,
}

// A row of the table.
#[derive(Clone, Copy)]
pub struct Row {
    // How many codewords end in the byte.
    pub count: usize,
    // The bits that finish the pending codeword, or make it longer where none ends: how many, and what F(k), F(k - 1) and F(k - 2) are multiplied with for
    // their value after k others. These are the sums of F(j), of F(j - 1) + F(j - 2), and of F(j - 1) over the ones among them.
    pub len: usize,
    pub coef0: u64,
    pub coef1: u64,
    pub coef2: u64,
    // The numbers of the codewords inside the byte; 0 where there is none.
    pub second: u32,
    pub third: u32,
    // What remains of the byte.
    pub rest: Rest,
}

// The row at 256 for each trailing one, plus the byte. Requires: at most two ones, which the table scan shows.
#[tactic(auto, using(crate::proofs::Rule::rule))]
pub fn look_up(at: usize) -> Row
    requires { at < 768 }
    ensures { IsRow at result }
{
    let (head, tail) = ROWS[at];
    Row {
        count: (head % 4) as usize,
        len: (head / 4 % 16) as usize,
        coef0: u64::from(head / 64 % 512),
        coef1: u64::from(head / 32768 % 256),
        coef2: u64::from(head / 8388608 % 512),
        second: tail % 16,
        third: tail / 16 % 4,
        rest: Rest {
            len: (tail / 1024 % 16) as usize,
            value: u64::from(tail / 16384 % 262144),
            ones: (tail / 256 % 4) as usize,
        },
    }
}

// F(n - 2), which is 0 at negative places, times a value of a row. Requires: a place of the table and such a value, which `moved` shows or requires.
fn times(n: usize, v: u64) -> u64
    requires { (n < 40) × (v < 512) }
    ensures { (result ≡ two_back n * v) × (result < 2 ^ 41) }
{
    POSITIONS_FROM_MINUS_TWO[n] * v
}

impl Row {
    // What the row's bits are worth after `len` others, over whole numbers: three products. Requires: a length of 37 or less, and a row's values, which the
    // table scan shows.
    #[tactic(auto, using(crate::proofs::Moving::moved_by))]
    pub fn moved(self, len: usize) -> u64
        requires { Movable len self }
        ensures { (result ≡ moved len self.coef0 self.coef1 self.coef2) × (result < 2 ^ 43) }
    {
        times(len + 2, self.coef0) + times(len + 1, self.coef1) + times(len, self.coef2)
    }
}
