//! The rule of the board's table.
use crate::view::View;
use atomic_table::TableRule;

/// The facts of the board hold between any two steps.
pub struct Rule;

impl TableRule<u8, View, u64> for Rule {
    ghost use Rattle.job_board.specs.Seats.{opening_view};
    ghost use Rattle.job_board.specs.Steps.{IsBoard};

    ghost holds = { IsBoard };

    ghost first = { opening_view };
}
