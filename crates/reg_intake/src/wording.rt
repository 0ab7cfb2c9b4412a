//! A refusal as one line for a person. The words stand beside each reason: in `fault.rt` of `history_text`,
//! in `refusal.rt` of `history_model`, and in `refusal.rt`.
use crate::refusal::Refusal;
use std::alloc::{AllocError, Global};

/// The one line, without its line end, that says why there is no report.
///
/// # Errors
/// If memory runs out.
pub fn message(alloc: Global, refusal: &Refusal) -> Result<String, AllocError> {
    format!(in alloc; "{refusal}")
}
