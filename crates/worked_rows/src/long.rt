//! Netlists and libraries that are too long to be stored.

use cg_text::number::push_number;
use std::alloc::{AllocError, Global};

/// A netlist of this many registers, which all take one input.
pub fn latches(alloc: Global, count: u32) -> Result<Vec<u8>, AllocError> {
    let mut text = Vec::from_slice(alloc, b".model latches\n.inputs clk a\n.outputs a\n")?;
    for number in 0..count {
        text.extend_from_slice(b".latch a q")?;
        push_number(&mut text, u64::from(number))?;
        text.extend_from_slice(b" re clk 0\n")?;
    }
    text.extend_from_slice(b".end\n")?;
    Ok(text)
}

/// A netlist of this many nets: one input, and constants.
pub fn nets(alloc: Global, count: u32) -> Result<Vec<u8>, AllocError> {
    let mut text = Vec::from_slice(alloc, b".model nets\n.inputs a\n.outputs a\n")?;
    for number in 1..count {
        text.extend_from_slice(b".names n")?;
        push_number(&mut text, u64::from(number))?;
        text.push(b'\n')?;
    }
    text.extend_from_slice(b".end\n")?;
    Ok(text)
}

/// A library of this many cells, C0 and so on, each known by name alone.
pub fn cells(alloc: Global, count: u32) -> Result<Vec<u8>, AllocError> {
    let mut text = Vec::from_slice(alloc, b"library (cells) {\n")?;
    for number in 0..count {
        text.extend_from_slice(b"  cell (C")?;
        push_number(&mut text, u64::from(number))?;
        text.extend_from_slice(b") { }\n")?;
    }
    text.extend_from_slice(b"}\n")?;
    Ok(text)
}
