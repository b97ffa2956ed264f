// Orders of numbers.
ghost use Rattle.std.specs.Prelude.{◌≡◌, ◌<◌, ◌≤◌, IfOk};
ghost use Rattle.irr_cyc.specs.declared.orders.TheConstants.{ORDER_LIMIT};

use irr_memory::Memory;
use std::alloc::Global;

/// The greatest order of a number.
pub const ORDER_LIMIT: u32 = 12_000;

/// An order of numbers: z is a primitive root of 1 of this order.
#[derive(Debug, Drop)]
pub struct Order {
    n: u32,
    pub ghost positive: { 0 < n },
    pub ghost limited: { n ≤ ORDER_LIMIT },
}

impl Order {
    /// The order n. No memory is needed for it so far.
    pub fn new(_alloc: Global, n: u32) -> Result<Order, Memory>
        requires positive { 0 < n }
        requires limited { n ≤ ORDER_LIMIT }
        ensures { IfOk result (λ order. order.n ≡ n) }
    {
        Ok(Order { n })
    }

    /// The order as a number.
    pub fn n(&self) -> u32
        ensures value { result ≡ self.now.n }
        ensures positive { 0 < result }
        ensures limited { result ≤ ORDER_LIMIT }
    {
        self.n
    }
}
