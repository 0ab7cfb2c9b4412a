//! How a seat's view is cut in two, and how two views are made one.
ghost use Rattle.std.specs.Prelude.{ℕ};

use crate::view::View;
use atomic_table::{Join, Split};
use std::marker::{Brand, PhantomData};

/// The weight that a split leaves to the first seat. It is a type's, since the
/// table's split reads the view and no argument.
pub trait Part {
    ghost part: { ℕ };
}

impl Part for Brand {
    ghost part = { 0 };
}

pub struct Cut<P: Part> {
    of: PhantomData<P>,
}

impl<P: Part> Split<View> for Cut<P> {
    ghost use Rattle.job_board.specs.Seats.{first_part, second_part};

    ghost left = { first_part P.part };

    ghost right = { second_part P.part };
}

pub struct Glue;

impl Join<View> for Glue {
    ghost use Rattle.job_board.specs.Seats.{joint_view, spent_view};

    ghost both = { joint_view };

    ghost spent = { spent_view };
}
