//! The ways in which a device call is struck.
use zen_disk::{Order, Way};

/// The call of this number is stopped, and all that is not synced is lost, is kept or becomes 01; or it fails.
pub(crate) fn orders(call: u64) -> [Order; 4] {
    [
        Order::Stop(call, Way::Lost),
        Order::Stop(call, Way::Kept),
        Order::Stop(call, Way::Torn(1)),
        Order::Fault(call),
    ]
}
