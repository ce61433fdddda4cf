//! The order of versions.
ghost use Rattle.std.specs.Prelude.{◌≡◌};
ghost use Rattle.solv_base.specs.Evr.{evr_cmp};
ghost use Rattle.gachuswi.specs.Orders.{order_number};

use solv_base::evr_compare;
use std::cmp::Ordering;

/// How two EVRs compare, each written `[epoch:]version[-release]`: -1 where the first is lower, 0 where neither is, and 1 where it is greater.
#[unsafe(no_mangle)]
pub extern "C" fn gachuswi_evr_compare(a: &[u8], b: &[u8]) -> i32
    ensures { result ≡ order_number (evr_cmp a.now b.now) }
{
    match evr_compare(a, b) {
        Ordering::Less => -1,
        Ordering::Equal => 0,
        Ordering::Greater => 1,
    }
}
