//! Numbers in ascending order.

ghost use Rattle.std.specs.Prelude.{◌≡◌, ℕ, ◌<◌, IfOk, true};
ghost use Rattle.std.specs.List.{filter, range_with_len};
ghost use Rattle.cg_net.specs.NetSets.{is_in};

use cg_list::Seq;
use cg_net::id::{NetId, RegId};
use std::alloc::{AllocError, Global};

/// The numbers in ascending order, each once.
pub fn ascending(numbers: Vec<u32>) -> Vec<u32>
    ensures { (n : ℕ) → ((x : ℕ) → is_in numbers.items x ≡ true → x < n) → result.items ≡ filter (is_in numbers.items) (range_with_len 0 n) }
{
    let mut ascending = numbers;
    ascending.sort_unstable();
    ascending.dedup();
    ascending
}

/// The nets of these numbers in ascending order, each once.
pub fn net_ids(alloc: Global, numbers: Seq<u32>) -> Result<Seq<NetId>, AllocError>
    ensures { IfOk result (λ nets. (n : ℕ) → ((x : ℕ) → is_in numbers x ≡ true → x < n) → nets ≡ filter (is_in numbers) (range_with_len 0 n)) }
{
    let numbers = ascending(numbers.into_vec());
    let mut nets = Seq::from_vec(Vec::with_capacity(alloc, numbers.len())?);
    for number in &numbers {
        nets.push(NetId::new(*number))?;
    }
    Ok(nets)
}

/// The registers of these numbers in ascending order, each once.
pub fn register_ids(alloc: Global, numbers: Seq<u32>) -> Result<Seq<RegId>, AllocError>
    ensures { IfOk result (λ registers. (n : ℕ) → ((x : ℕ) → is_in numbers x ≡ true → x < n) → registers ≡ filter (is_in numbers) (range_with_len 0 n)) }
{
    let numbers = ascending(numbers.into_vec());
    let mut registers = Seq::from_vec(Vec::with_capacity(alloc, numbers.len())?);
    for number in &numbers {
        registers.push(RegId::new(*number))?;
    }
    Ok(registers)
}
