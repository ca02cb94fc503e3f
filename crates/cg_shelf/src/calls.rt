//! The trait [`Shelf`]: four calls and what they mean.

use crate::faults::{LoadFault, StoreFault};

/// Where files and texts come from and go to.
///
/// A shelf is seen as a [`World`](../specs/World.antt): whether it tells what it holds, the bytes under
/// each name, what was said and complained, the calls that were made, and those that failed. Both lists of calls
/// are always exact and only grow. Each call adds itself to those that were made, with what it was asked for and
/// what it answered, so that a load is listed with the bytes that it gave. A call that answers `Failed` adds one
/// entry to those that failed, its own call and name, and any other answer adds none. What is said of held bytes
/// and texts holds where the shelf tells.
pub trait Shelf {
    ghost use Rattle.std.specs.Prelude.{◌≡◌, ◌++◌, ◌∷◌, ◌≤◌, [], Some, length, IsTrue, OnOk, OnErr};
    ghost use Rattle.cg_shelf.specs.World.{World};
    ghost use Rattle.cg_shelf.specs.Asked.{Loaded, Stored, Said, Complained};
    ghost use Rattle.cg_shelf.specs.Shelf.{LoadAnswers, Appends, SameBut, call_faults, load_faults, load_given};
    ghost use Rattle.cg_shelf.specs.declared.faults.Call.TheVariants.{Store, Say, Complain};

    ghost world: { Self → World };

    /// Reads the file `name` into `into`, which is emptied first.
    ///
    /// Refuses with `TooLong` a file of more than `limit` bytes. After a refusal `into` is empty.
    fn load(&mut self, name: &str, limit: u64, into: &mut Vec<u8>) -> Result<(), LoadFault>
        ensures answer { IsTrue (world self.old).tells
            → LoadAnswers ((world self.old).held name.now) limit into.new.items result }
        ensures within { OnOk result (length into.new.items ≤ limit) }
        ensures refused { OnErr result (into.new.items ≡ []) }
        ensures same_held { IsTrue (world self.old).tells → (world self.new).held ≡ (world self.old).held }
        ensures same_said { IsTrue (world self.old).tells → (world self.new).said ≡ (world self.old).said }
        ensures same_complained { IsTrue (world self.old).tells
            → (world self.new).complained ≡ (world self.old).complained }
        ensures same_tells { (world self.new).tells ≡ (world self.old).tells }
        ensures listed { (world self.new).calls
            ≡ (world self.old).calls ++ Loaded name.now limit (load_given into.new.items result) ∷ [] }
        ensures failed { (world self.new).faults ≡ (world self.old).faults ++ load_faults name.now result };

    /// Puts the bytes under `name`, in place of what was there.
    ///
    /// After a refusal what stands under `name` is open; every other name keeps what it held.
    fn store(&mut self, name: &str, bytes: &[u8]) -> Result<(), StoreFault>
        ensures stored { IsTrue (world self.old).tells
            → OnOk result ((world self.new).held name.now ≡ Some bytes.now) }
        ensures others { IsTrue (world self.old).tells
            → SameBut name.now (world self.old).held (world self.new).held }
        ensures same_said { IsTrue (world self.old).tells → (world self.new).said ≡ (world self.old).said }
        ensures same_complained { IsTrue (world self.old).tells
            → (world self.new).complained ≡ (world self.old).complained }
        ensures same_tells { (world self.new).tells ≡ (world self.old).tells }
        ensures listed { (world self.new).calls ≡ (world self.old).calls ++ Stored name.now bytes.now result ∷ [] }
        ensures failed { (world self.new).faults
            ≡ (world self.old).faults ++ call_faults Store name.now result };

    /// Adds the bytes to what was said.
    ///
    /// After a refusal a front part of them was added.
    fn say(&mut self, bytes: &[u8]) -> Result<(), StoreFault>
        ensures said { IsTrue (world self.old).tells
            → Appends (world self.old).said (world self.new).said bytes.now result }
        ensures same_held { IsTrue (world self.old).tells → (world self.new).held ≡ (world self.old).held }
        ensures same_complained { IsTrue (world self.old).tells
            → (world self.new).complained ≡ (world self.old).complained }
        ensures same_tells { (world self.new).tells ≡ (world self.old).tells }
        ensures listed { (world self.new).calls ≡ (world self.old).calls ++ Said bytes.now result ∷ [] }
        ensures failed { (world self.new).faults ≡ (world self.old).faults ++ call_faults Say [] result };

    /// Adds the bytes to what was complained.
    ///
    /// After a refusal a front part of them was added.
    fn complain(&mut self, bytes: &[u8]) -> Result<(), StoreFault>
        ensures complained { IsTrue (world self.old).tells
            → Appends (world self.old).complained (world self.new).complained bytes.now result }
        ensures same_held { IsTrue (world self.old).tells → (world self.new).held ≡ (world self.old).held }
        ensures same_said { IsTrue (world self.old).tells → (world self.new).said ≡ (world self.old).said }
        ensures same_tells { (world self.new).tells ≡ (world self.old).tells }
        ensures listed { (world self.new).calls ≡ (world self.old).calls ++ Complained bytes.now result ∷ [] }
        ensures failed { (world self.new).faults
            ≡ (world self.old).faults ++ call_faults Complain [] result };
}
