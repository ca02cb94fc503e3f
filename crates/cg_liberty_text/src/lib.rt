//! The text of a standard-cell library, statement by statement, as the Liberty format writes it.
//!
//! In go the bytes of a file. Out come the beginnings and ends of its groups and its attributes, one after the
//! other and without a copy, or the first fault of the text with its place. What the statements say of cells is
//! asked elsewhere.
//!
//! In the order in which data flows through them:
//!
//! - [`lexeme`]: what begins at a byte, and how long it is;
//! - [`text`]: the bytes that a word or a string stands for;
//! - [`token`], [`tokens`]: a token, and a text cut into tokens;
//! - [`argument`]: the arguments and the values of statements;
//! - [`hints`], [`indexed`]: looking for texts among many arguments;
//! - [`statement`], [`statements`]: a statement, and a text read statement by statement;
//! - [`fault`]: what a text may be refused for.
#![tactic(auto)]

pub mod argument;
pub mod fault;
pub mod hints;
pub mod indexed;
pub mod lexeme;
pub mod statement;
pub mod statements;
pub mod text;
pub mod token;
pub mod tokens;
