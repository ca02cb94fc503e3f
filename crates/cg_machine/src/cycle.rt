//! The bits of a machine's nets in a cycle, and the next bits of its registers.

ghost use Rattle.std.specs.Prelude.{◌≡◌, ◌<◌, ◌≤◌, not, if◌then◌else◌, length, map};
ghost use Rattle.std.specs.List.{All};
ghost use Rattle.std.specs.Option.{option_to_list};
ghost use Rattle.cg_machine.specs.Machine.{IsInputs, IsState, enable_of, load, next, values as bits_of};
ghost use Rattle.cg_machine.specs.inner.Putting.{put_bits};
ghost use Rattle.cg_netlist.specs.Circuit.{register_nets};
ghost use Rattle.cg_netlist.specs.Moment.{register_bits};
ghost use Rattle.cg_netlist.specs.Netlist.{widest_of};
ghost use Rattle.std.specs.Prelude.{false};

use crate::machine::Machine;
use cg_net::id::{NetId, RegId};
use cg_netlist::netlist::Netlist;

impl Machine {
    /// The greatest number of inputs of a logic cell or an added gate, 0 without any.
    pub fn widest(&self) -> u32
        ensures { result ≡ widest_of self.now.circuit.cells }
    {
        self.netlist.widest().max(self.gates.widest())
    }

    /// Fills in the bits of all nets in a cycle, from the bits of the registers and the data inputs; the clock's is 0.
    /// `state` has a bit for each register, `inputs` one for each data input, `values` one for each net, and `scratch` at
    /// least `widest` places. What `values` and `scratch` held does not matter. It takes no memory.
    pub fn evaluate(
        &self,
        state: &[bool],
        inputs: &[bool],
        values: &mut [bool],
        scratch: &mut [bool],
    )
        requires state { IsState self.now state.now }
        requires inputs { IsInputs self.now inputs.now }
        requires values { length values.old ≡ length self.now.circuit.names }
        requires scratch { widest_of self.now.circuit.cells ≤ length scratch.old }
        ensures { values.new ≡ bits_of self.now state.now inputs.now }
    {
        put_bits(self.netlist.data_inputs(), inputs, values);
        put_clock(self.netlist.clock(), values);
        put_registers(&self.netlist, state, values);
        self.delays
            .put(&state[self.netlist.registers() as usize..], values);
        self.netlist.settle(values, scratch);
        self.gates.put(values);
    }

    /// The next bit of a register, where the registers have the bits `state` and the nets the bits `values`: its function
    /// of its inputs and its own bit where it is loaded, and else its own bit.
    pub fn next_value(&self, reg: RegId, state: &[bool], values: &[bool]) -> bool
        requires register { reg < length self.now.circuit.registers }
        requires state { IsState self.now state.now }
        requires values { length values.now ≡ length self.now.circuit.names }
        ensures { result ≡ next self.now values.now state.now reg }
    {
        let _netlist = self.netlist();
        let own = state[reg.number() as usize];
        if self.is_delay(reg) {
            let (net, _) = self.delay(reg);
            return values[net.number() as usize];
        }
        if self.is_loaded(reg, values) {
            self.netlist.next_value(reg, own, values)
        } else {
            own
        }
    }

    /// Whether a register is loaded: its enable is 1, or it has none.
    fn is_loaded(&self, reg: RegId, values: &[bool]) -> bool
        requires register { reg < length self.now.circuit.registers }
        requires values { length values.now ≡ length self.now.circuit.names }
        ensures { result ≡ load values.now (enable_of self.now reg) }
    {
        let _netlist = self.netlist();
        match self.enable(reg) {
            Some(enable) => values[enable.number() as usize],
            None => true,
        }
    }
}

/// Puts these bits at these nets.
fn put_bits(nets: &[NetId], bits: &[bool], values: &mut [bool])
    requires nets { All (λ net. net < length values.old) nets.now }
    requires bits { length bits.now ≡ length nets.now }
    ensures { values.new ≡ put_bits nets.now bits.now values.old }
{
    for k in 0..nets.len() {
        values[nets[k].number() as usize] = bits[k];
    }
}

/// Puts 0 at the clock.
fn put_clock(clock: Option<NetId>, values: &mut [bool])
    requires { All (λ net. net < length values.old) (option_to_list clock) }
    ensures { values.new ≡ put_bits (option_to_list clock) (map (λ _. false) (option_to_list clock)) values.old }
{
    if let Some(clock) = clock {
        values[clock.number() as usize] = false;
    }
}

/// Puts at the outputs of a netlist's registers what they show.
fn put_registers(netlist: &Netlist, state: &[bool], values: &mut [bool])
    requires state { length netlist.now.registers ≤ length state.now }
    requires values { length netlist.now.names ≤ length values.old }
    ensures { values.new ≡ put_bits (register_nets netlist.now) (register_bits netlist.now.registers state.now) values.old }
{
    for r in 0..netlist.registers() {
        let register = netlist.register(RegId::new(r));
        put_outputs(register.outputs, state[r as usize], values);
    }
}

/// Puts at the outputs of a register what it shows.
fn put_outputs(outputs: &[(NetId, bool)], stored: bool, values: &mut [bool])
    requires { All (λ output. output.0 < length values.old) outputs.now }
    ensures { values.new ≡ put_bits (map (λ output. output.0) outputs.now) (map (λ output. if output.1 then not stored else stored) outputs.now) values.old }
{
    for place in 0..outputs.len() {
        let (net, inverted) = outputs[place];
        values[net.number() as usize] = if inverted { !stored } else { stored };
    }
}
