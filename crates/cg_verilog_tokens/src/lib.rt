//! The tokens of a structural Verilog text, read one after another.
//!
//! In go the bytes of a text. Out come its tokens with their lines, each of which says what it is: a name, a number, a bit, a word, a
//! mark. What begins at a byte, and what the tokens of a text are, stands in `cg_verilog_text`. A crate of its own, since tokens know
//! nothing of the items that are made of them.
//!
//! The modules, in the order in which data flows through them:
//!
//! - `lexeme`: what begins at a byte of a text;
//! - [`identifier`], [`numeral`], [`mark`]: names, numbers and marks, as they are written;
//! - [`token`]: a token, and what it is;
//! - [`tokens`]: the tokens of a text, one after another.
#![tactic(auto)]

pub mod identifier;
mod lexeme;
pub mod mark;
pub mod numeral;
pub mod token;
pub mod tokens;
