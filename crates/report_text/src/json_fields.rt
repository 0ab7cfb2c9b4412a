//! The fields of a JSON object, one after another: what they are, and how they are sent to a serializer.
//!
//! What the floor above may rely on: [`send_text`], [`send_number`], [`send_numbers`], [`send_pair`] and
//! [`send_yes_or_no`] send one field, a key and its value, and [`show_number`] sends one only if there is a
//! value; [`one_if`] counts such a field; [`put_line`] appends a line to a text. Which fields an object has,
//! and in which order, is told by the floor above. The lemmas of `Fields` say that fields that are sent one
//! after another make an object, how many there are, and that it has no float if none of them has.
//!
//! Read it in this order: `Fields` of `specs/JsonFields`, what fields are; `Sends`, what is sent for them;
//! `send`; `count`; `line`.

mod count;
mod line;
mod send;

pub use count::one_if;
pub use line::put_line;
pub use send::{send_number, send_numbers, send_pair, send_text, send_yes_or_no, show_number};
