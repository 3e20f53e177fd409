// The Fibonacci codes of order 2 to 6: position values and first numbers, by constant tables; the first numbers of order 2 by its position values.
#![tactic(auto)]

ghost use Rattle.std.specs.Prelude.{◌≡◌, ◌≤◌, MatchResult, false, true};
ghost use Rattle.calls.specs.declared.Refusal.TheVariants.{BadOrder};
ghost use Rattle.calls.specs.Limits.{is_order, max_number};
ghost use Rattle.fibonacci.specs.Code.{F, first};
ghost use Rattle.fibonacci.specs.Leaves.{number_or_zero, Positions, Holds};

mod tables;

use calls::Refusal;
use tables::{FIRST_NUMBERS, POSITIONS};

// An order of the codes that are in use: 2 to 6.
#[derive(Clone, Copy)]
pub struct Order {
    m: usize,
    ghost in_use: { (2 ≤ m) × (m ≤ 6) },
}

impl Order {
    // The check of an order, which every operation makes first.
    pub fn new(m: usize) -> Result<Order, Refusal>
        ensures { MatchResult result (λ o. (o.m ≡ m) × (is_order m ≡ true)) (λ r. (r ≡ BadOrder) × (is_order m ≡ false)) }
    {
        if !calls::is_order(m) {
            return Err(Refusal::BadOrder);
        }
        Ok(Order { m })
    }

    pub fn m(self) -> usize
        ensures { result ≡ self.m }
    {
        self.m
    }

    // The position values F(0), F(1), .. , as far as they are at most 4,294,967,295, and 0 for those above: a row that a caller may look values up in. Its own
    // entries recur.
    pub fn position_row(self) -> &'static [u32; 47]
        ensures { Positions self.m result.now × Holds (F self.m) result.now }
    {
        &POSITIONS[self.m - 2]
    }

    // F(j). Requires: that it is at most 4,294,967,295, which whoever values a digit of a number up to there shows.
    pub fn position(self, j: usize) -> u64
        requires { F self.m j ≤ max_number }
        ensures { result ≡ F self.m j }
    {
        let row = self.position_row();
        u64::from(row[j])
    }

    // The first numbers, by how many bits stand before the last ones. In order 2, with d bits before the last ones, that is F(d + 1) (paper 02, R-3): the
    // position values from F(1) on; F(47) is above 4,294,967,295.
    fn first_row(self) -> &'static [u32]
        ensures { Holds (first self.m) result.now }
    {
        if self.m == 2 {
            return &POSITIONS[0][1..];
        }
        &FIRST_NUMBERS[self.m - 3]
    }

    // The first number whose codeword has d bits before its last ones; 0 where it is above 4,294,967,295.
    pub fn first_number(self, d: usize) -> u64
        ensures { result ≡ number_or_zero (first self.m d) }
    {
        let row = self.first_row();
        if d < row.len() { u64::from(row[d]) } else { 0 }
    }
}
