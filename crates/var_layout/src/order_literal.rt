//! The literal of an order variable.

ghost use Rattle.std.specs.Prelude.{◌≡◌, ◌≢◌, ◌<◌, ◌≤◌};
ghost use Rattle.var_layout.specs.OrderVariables as order;

use dimacs::Lit;

/// The variable that says that operation i stands before operation j, for i below j. The pairs (0, 1), (0, 2), .., (1, 2), .. have the
/// variables from 1 on in this order: `i * (2 * count - i - 1) / 2` pairs begin with an operation below i. At 160 operations the last is 12,720.
#[inline]
pub(crate) fn order_var(count: u32, i: u32, j: u32) -> u32
    requires apart { i < j }
    requires within { j < count }
    requires few { count ≤ 160 }
    ensures variable { result ≡ order.order_var count i j }
    ensures first { 1 ≤ result }
    ensures last { result ≤ order.order_count count }
    ensures small { result ≤ 12720 }
{
    i * (2 * count - i - 1) / 2 + (j - i)
}

/// The literal that says that operation i stands before operation j.
#[inline]
pub(crate) fn order_lit(count: usize, i: usize, j: usize) -> Lit
    requires apart { i ≢ j }
    requires first { i < count }
    requires second { j < count }
    requires few { count ≤ 160 }
    ensures { result ≡ order.order_lit count i j }
{
    if i < j {
        Lit::positive(order_var(count as u32, i as u32, j as u32))
    } else {
        Lit::positive(order_var(count as u32, j as u32, i as u32)).negated()
    }
}
