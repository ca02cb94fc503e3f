//! Text as lines, words and decimal numbers, for every reader and writer of a line format.
//!
//! Bytes go in. Out come words with the numbers of their lines, and numbers; the other way, numbers become
//! digits. The formats differ in which bytes are blanks and what is a comment: a [`Layout`] says that. Each
//! reader is a cursor over the text, and contracts see it as the list of what it has left.
//!
//! Modules, as data flows: [`blanks`] (which bytes separate), [`piece`] (a text cut at separators),
//! [`words`] (the words of a line), [`lines`] (the lines that have words, with their numbers), [`tokens`]
//! (the words of all lines in a row), [`number`] (decimal numbers, read and written).
#![tactic(auto)]

pub mod blanks;
pub mod lines;
pub mod number;
mod piece;
pub mod tokens;
pub mod words;
