//! The library of the pipeline's cells.

ghost use Rattle.std.specs.Prelude.{◌≡◌};
ghost use Rattle.cg_demo.specs.Pipeline.{library};

/// The Liberty text of the library: an inverter, gates, a multiplexer, flip-flops and a gating cell.
pub fn library() -> &'static [u8]
    ensures { result.now ≡ library }
{
    b"library (rows) {
  cell (INV) { pin (A) { direction : input; }
    pin (Y) { direction : output; function : \"A'\"; } }
  cell (AND2) { pin (A) { direction : input; } pin (B) { direction : input; }
    pin (Y) { direction : output; function : \"A * B\"; } }
  cell (OR2) { pin (A) { direction : input; } pin (B) { direction : input; }
    pin (Y) { direction : output; function : \"A + B\"; } }
  cell (MUX2) { pin (A) { direction : input; } pin (B) { direction : input; }
    pin (S) { direction : input; }
    pin (Y) { direction : output; function : \"(A * S') + (B * S)\"; } }
  cell (DFF) { ff (IQ, IQN) { next_state : \"D\"; clocked_on : \"CK\"; }
    pin (D) { direction : input; } pin (CK) { direction : input; clock : true; }
    pin (Q) { direction : output; function : \"IQ\"; } }
  cell (DFFR) { ff (IQ, IQN) { next_state : \"D\"; clocked_on : \"CK\"; clear : \"RN'\"; }
    pin (D) { direction : input; } pin (CK) { direction : input; }
    pin (RN) { direction : input; }
    pin (Q) { direction : output; function : \"IQ\"; } }
  cell (ICG) { clock_gating_integrated_cell : \"latch_posedge\";
    pin (CK) { direction : input; clock_gate_clock_pin : true; }
    pin (E) { direction : input; clock_gate_enable_pin : true; }
    pin (GCK) { direction : output; clock_gate_out_pin : true; } }
}
"
}
