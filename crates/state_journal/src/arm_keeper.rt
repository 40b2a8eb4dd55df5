//! A keeper whose disk takes orders.
ghost use Rattle.std.specs.Prelude.{◌≡◌, ℕ, Option};
ghost use Rattle.zen_disk.specs.Moments.{Same};
ghost use Rattle.zen_disk.specs.declared.orders.Order.{Order as DiskOrder};

use crate::Keeper;
use zen_disk::Order;

/// A keeper whose disk can be ordered to stop or to fail at a later call.
pub trait ArmKeeper: Keeper {
    /// Whether this order leads from one to the other, as far as that is told.
    ghost arms: { Self → DiskOrder → Self → Type 0 };

    /// Takes an order for its disk, in place of an earlier one of its kind. This is no device call.
    fn arm(&mut self, order: Order)
        ensures record { Self.Keeper.record_of self.new ≡ Self.Keeper.record_of self.old }
        ensures stopped { Self.Keeper.has_stopped self.new ≡ Self.Keeper.has_stopped self.old }
        ensures faults { Self.Keeper.faults self.new ≡ Self.Keeper.faults self.old }
        ensures moment { Self.Keeper.moment self.new ≡ Self.Keeper.moment self.old }
        ensures left_since { (t : ℕ) → Same (Self.Keeper.left_since self.old t) (Self.Keeper.left_since self.new t) }
        ensures arms { arms self.old order self.new };
}
