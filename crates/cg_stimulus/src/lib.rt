//! Stimuli: what the data inputs of a netlist are given, moment by moment.
//!
//! The bytes of a text and a netlist go in, and a [`Stimulus`](stimulus::Stimulus) comes out: the rows, each with a bit for each
//! data input; or the text's first fault. In `specs/` stand the definitions of the text, of what is read, and of the
//! history of a netlist on which rows are played.
//!
//! Modules, as data flows: [`header`] (the first line), [`row`] (a row's bits), [`read`] (the whole text), [`bit_rows`] (rows in one list),
//! [`stimulus`] (rows, read or pushed one by one), [`played`] (the history on which they are played), [`fault`] (why a text is refused).
#![tactic(auto)]

mod bit_rows;
pub mod fault;
mod header;
pub mod played;
pub mod read;
mod row;
pub mod stimulus;
