//! What the cells of a netlist compute, and the library that they come from.
//!
//! In goes what a reader has found in a text: names, expressions, the rows of a cover, the pins of a
//! cell. Out come values that every later step asks: the bit of an expression or of a cover, the
//! kind and the pins of a cell, the first cell of a library that fits a need.
//!
//! In the order in which data flows through them:
//!
//! - [`name`]: the names of nets, cells and pins;
//! - [`rows`], [`cover`]: a function as rows of given bits;
//! - [`shared_covers`]: covers that cells share;
//! - [`expr`]: a function as an expression over numbered variables;
//! - [`lone`]: expressions that are one variable;
//! - [`cell`]: cells of a library, with their kind, their pins and their function;
//! - [`fit`]: which cells clock gating can use, and as what;
//! - [`library`]: the cells of a library, by number, by name and by need;
//! - [`domain`]: values that stand for bits, and what may be done with them;
//! - [`build`]: what is built from them, as the exclusive or, in a fixed order;
//! - [`eval`], [`eval_cover`]: expressions and covers over any domain;
//! - [`eval_bits`]: and over truth values.
#![tactic(auto)]

pub mod build;
pub mod cell;
pub mod cover;
pub mod domain;
pub mod eval;
pub mod eval_bits;
pub mod eval_cover;
pub mod expr;
pub mod fit;
pub mod library;
pub mod lone;
pub mod name;
pub mod rows;
pub mod shared_covers;
