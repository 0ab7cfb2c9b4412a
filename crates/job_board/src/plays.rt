//! What each step on a word tells the seat that steps.
use crate::view::View;
use atomic_table::Play;

pub struct Draws;

impl Play<u8, View> for Draws {
    ghost use Rattle.job_board.specs.Steps.{DrawTells};

    ghost then = { λ step before found after. DrawTells before found after };
}

pub struct Flags;

impl Play<u8, View> for Flags {
    ghost use Rattle.job_board.specs.Steps.{FlagTells};

    ghost then = { λ step before found after. FlagTells step.first before after };
}

pub struct Looks;

impl Play<u8, View> for Looks {
    ghost use Rattle.job_board.specs.Steps.{LookTells};

    ghost then = { λ step before found after. LookTells before found after };
}

pub struct Counts;

impl Play<u8, View> for Counts {
    ghost use Rattle.job_board.specs.Steps.{CountTells};

    ghost then = { λ step before found after. CountTells before after };
}
