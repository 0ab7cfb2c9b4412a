//! Tests of what `regcheck` is made of, from the lines of an input to runs in memory. What the built program
//! answers is tested by tests/answers.
//!
//! A comparison or a table that stands in a function is proved with all that the function holds. So the rows
//! of a table come from a function of their own, `expect_eq` compares, and a test hands its work to functions
//! that ask for the rights they need.
//!
//! Read it in this order: `expect` and `settings`, which others use; `text`, the lines of inputs; `short`,
//! histories in a few letters; `walks`, `operations`, `values` and `keys`, what an arena tells of them;
//! `pieces`, the work over them; `rows`, some histories with their answers; `answer`, which runs them;
//! `messages`, what is said of lines of other numbers; `failing_ends`, where little comes at a time or
//! something fails; `reports`, what a caller in code gets; `workers`, where several work at once.

mod answer;
mod expect;
mod failing_ends;
mod keys;
mod messages;
mod operations;
mod pieces;
mod reports;
mod rows;
mod settings;
mod short;
mod text;
mod values;
mod walks;
mod workers;
