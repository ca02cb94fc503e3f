//! The pipeline of one place, as its text.

use crate::netlist::generated;
use std::test::Fail;

#[test]
fn one_place(rt: HostRuntime) -> Result<(), Fail> {
    let text = generated(rt.alloc(), 1)?;
    let wanted = ".model demo
.inputs valid d0
.outputs e0
.clock clk
.gate MUX2 A=b0 B=a0 S=v1 Y=m0
.gate INV A=b0 Y=n0
.gate MUX2 A=e0 B=c0 S=v3 Y=k0
.latch valid v1 re clk 0
.latch v1 v2 re clk 0
.latch v2 v3 re clk 0
.latch d0 a0 re clk 0
.latch m0 b0 re clk 0
.latch n0 c0 re clk 0
.latch k0 e0 re clk 0
.end
";
    assert_eq!(rt; text.as_slice(), wanted.as_bytes());
    Ok(())
}
