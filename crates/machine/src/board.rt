// What every machine keeps: the capacity, the live handles, the count of orders and the latest order.
ghost use Rattle.std.specs.Prelude.{◌≡◌, ◌^◌, ◌<◌, ◌≤◌, false, length, slice_index_or};
ghost use Rattle.machine.specs.Model.{tally};

use crate::order::Order;

mod orders;

// Fixed memory; used is kept so that no order has to count.
#[derive(Drop)]
pub(crate) struct Board {
    capacity: u8,
    used: u8,
    live: [bool; 64],
    count: u32,
    latest: Option<Order>,
    ghost least: { 1 ≤ capacity },
    ghost most: { capacity ≤ 64 },
    ghost small: { count < 2 ^ 32 },
    ghost long: { length live ≡ 64 },
    ghost tallied: { used ≡ tally (λ k. slice_index_or live k false) 64 },
}
