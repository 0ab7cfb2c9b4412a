//! What the report of a history's levels says of each register, and its bytes.
//!
//! What the floor above may rely on: [`text`] gives the bytes of a [`LevelsReport`]: a line of compact JSON
//! for each register and one for the summary, keys in byte order. What a report has to say of a history is
//! told by the floor above.
//!
//! Read it in this order: `report`, the values; `level_name`, the words of levels; `objects`, the values that
//! are objects themselves, and how they are sent to a serializer; `causal`, what is said of the whole
//! history; `send`, the lines, field by field as `json_fields` has it; `written`, the bytes.

mod causal;
mod level_name;
mod objects;
mod report;
mod send;
mod written;

pub use causal::{CausalFaultLines, CausalLines, CausalVerdict, StepLines, StepReason};
pub use level_name::UnknownLevel;
pub use report::{
    CalledOperations, EarlyRead, FaultLines, Freshness, GapLines, KeptGuarantees, LevelName,
    LevelsReport, MissedWrite, OrderLines, RegisterLevels, Required, Totals, WentBack,
};
pub use written::text;
