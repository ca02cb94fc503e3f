//! The values of nodes, where the leaves have given bits.

ghost use Rattle.std.specs.Prelude.{◌≡◌, ◌≤◌, ◌<◌, ◌+◌, ◌*◌, ◌&&◌, false, ◌∷◌, length, take, IsTrue};
ghost use Rattle.cg_aig.specs.Aig.{are_pairs, lit_bit, values_from};

/// Writes the values of all nodes in order: 0, the bits of the leaves, and the value of each and-node.
pub(crate) fn fill(bits: &[bool], pairs: &[(u32, u32)], buffer: &mut [bool])
    requires room { 1 + length bits.now + length pairs.now ≤ length buffer.old }
    requires sound { IsTrue (are_pairs (1 + length bits.now) pairs.now) }
    ensures { take (1 + length bits.now + length pairs.now) buffer.new ≡ values_from (false ∷ bits.now) pairs.now }
{
    fill_leaves(bits, buffer);
    fill_ands(1 + bits.len(), pairs, buffer);
}

/// Writes the values of the constant and of the leaves.
fn fill_leaves(bits: &[bool], buffer: &mut [bool])
    requires { 1 + length bits.now ≤ length buffer.old }
    ensures { take (1 + length bits.now) buffer.new ≡ false ∷ bits.now }
{
    buffer[0] = false;
    for (k, bit) in bits.iter().enumerate() {
        buffer[1 + k] = *bit;
    }
}

/// Writes the values of the and-nodes behind the first ones, which are there.
fn fill_ands(first: usize, pairs: &[(u32, u32)], buffer: &mut [bool])
    requires room { first + length pairs.now ≤ length buffer.old }
    requires sound { IsTrue (are_pairs first pairs.now) }
    ensures { take (first + length pairs.now) buffer.new ≡ values_from (take first buffer.old) pairs.now }
{
    for (k, pair) in pairs.iter().enumerate() {
        buffer[first + k] = both(buffer, *pair);
    }
}

/// Whether both literals of a pair are 1, where the nodes have these values.
fn both(values: &[bool], pair: (u32, u32)) -> bool
    requires left { pair.0 < 2 * length values.now }
    requires right { pair.1 < 2 * length values.now }
    ensures { result ≡ (lit_bit values.now pair.0 && lit_bit values.now pair.1) }
{
    bit(values, pair.0) && bit(values, pair.1)
}

/// The bit of a literal, by its number, where the nodes have these values.
pub(crate) fn bit(values: &[bool], number: u32) -> bool
    requires { number < 2 * length values.now }
    ensures { result ≡ lit_bit values.now number }
{
    let value = values[(number / 2) as usize];
    if number % 2 == 0 { value } else { !value }
}
