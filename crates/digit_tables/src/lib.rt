// What a byte is worth as eight digits in order 2 to 6, at each of six places: a constant table for each order.
#![tactic(auto)]

ghost use Rattle.std.specs.Prelude.{◌≡◌};
ghost use Rattle.digit_tables.specs.Leaves.{byte_values};

mod tables;

use fibonacci::Order;
use tables::VALUES;

// The values of an order's digits by bytes, which `digit_values` looks up in place.
pub fn values(order: Order) -> &'static [u32; 1536]
    ensures { result.now ≡ byte_values order.m }
{
    &VALUES[order.m() - 2]
}
