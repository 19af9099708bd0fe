//! The writes of a location, in order.
ghost use Rattle.std.specs.Prelude.{◌≡◌, ◌≤◌, ◌==◌, [], length, if◌then◌else◌, Some, None, nat_le};
ghost use Rattle.std.specs.List.{position as place};
ghost use Rattle.std.specs.Option.{option_map};
ghost use Rattle.orders.specs.Orders.{members, position};

use programs::bounded::*;
use programs::parts::*;

/// The most writes of a location: one for each statement, and the initial one.
pub const MAX_WRITES: usize = 33;

/// At most 33 event numbers, in order.
pub type Order = Bounded<u8, 0, MAX_WRITES>;

/// An order of nothing.
pub fn new() -> Order
    ensures { members result ≡ [] }
{
    Order::empty(0)
}

/// The writes in the order given; none where there are more than 33.
pub fn of(writes: &[u8]) -> Option<Order>
    ensures { option_map members result ≡ (if nat_le (length writes.now) 33 then Some writes.now else None) }
{
    Order::of(0, writes)
}

/// The place of a write in an order, if it is one of them.
pub fn place(order: &Order, write: usize) -> Option<usize>
    ensures { result ≡ place (λ x. x == write) (members order.now) }
{
    order
        .as_slice()
        .iter()
        .position(|member| usize::from(*member) == write)
}

/// The place of a write in an order; the number of writes where it is not one of them, so that mo can compare any two places.
#[tactic(auto, using(crate::proofs::Placing::position_or_length))]
pub fn position(order: &Order, write: usize) -> usize
    ensures value { result ≡ position (members order.now) write }
    ensures bound { result ≤ 33 }
{
    place(order, write).unwrap_or(order.len())
}
