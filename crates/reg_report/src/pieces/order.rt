//! An order of a register's operations.
ghost use Rattle.std.specs.Prelude.{◌≡◌};

use reg_zones::Placed;
use std::marker::Model;

/// The canonical order of a register; contracts see it as its list.
#[derive(Drop)]
pub struct Order {
    placed: Vec<Placed>,
}

impl Model for Order {
    ghost use Rattle.std.specs.Prelude.{List};
    ghost use Rattle.reg_zones.specs.declared.placed.Placed.{Placed};

    ghost Value = { List Placed };

    ghost view = { λ a. a.placed.items };
}

impl Order {
    /// The order of these operations.
    pub fn new(placed: Vec<Placed>) -> Order
        ensures { result ≡ placed.items }
    {
        Order { placed }
    }

    /// The operations with their points, in their order.
    pub fn as_slice(&self) -> &[Placed]
        ensures { result.now ≡ self.now }
    {
        self.placed.as_slice()
    }
}
