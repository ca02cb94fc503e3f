//! A shelf in memory, which fails where it is told to.

ghost use Rattle.std.specs.Prelude.{◌≡◌, ◌-◌, ◌+◌, ◌^◌, ◌≤◌, ◌++◌, ◌∷◌, ◌||◌, [], Some, None, length, min, is_none, IfOk, OnOk, OnErr};
ghost use Rattle.std.specs.Prelude.{option_copied};
ghost use Rattle.cg_shelf.specs.MemShelf.{held_by, world_of, count_of, failing_of, next_fails, LoadFailsWhere};
ghost use Rattle.cg_shelf.specs.MemShelf.{FailsWhere, Lists, ListsLoad, made_by, one_call};
ghost use Rattle.cg_shelf.specs.Asked.{Loaded, Stored, Said, Complained};
ghost use Rattle.cg_shelf.specs.Shelf.{LoadAnswers, Appends, SameBut, call_faults, load_faults, load_given, one_fault};
ghost use Rattle.cg_shelf.specs.declared.faults.Call.TheVariants.{Store, Say, Complain};

use crate::call_log::{Answered, CallLog};
use crate::calls::Shelf;
use crate::faults::{Call, CallMade, Fault, FileName, LoadFault, StoreFault};
use std::alloc::{AllocError, Global};
use std::collections::BTreeMap;

/// A shelf in memory. It tells everything, and a call of it fails exactly where its number is among those
/// that [`MemShelf::new`] was given, or where it loads a name that is not held. A refused call leaves what
/// is held, said and complained as it was.
#[derive(Drop)]
pub struct MemShelf {
    alloc: Global,
    files: BTreeMap<String, Vec<u8>>,
    said: Vec<u8>,
    complained: Vec<u8>,
    calls: CallLog,
    made: Vec<CallMade>,
    faults: Vec<Fault>,
    // The numbers of the calls that are to fail, and how many calls were made.
    failing: Vec<u64>,
    count: u64,
}

impl MemShelf {
    // Making and filling.

    /// An empty shelf whose calls with these numbers fail, counted from 0 over all four calls.
    pub fn new(alloc: Global, failing: &[u64]) -> Result<MemShelf, AllocError>
        ensures empty { IfOk result (λ shelf. held_by shelf ≡ (λ _. None)) }
        ensures said { IfOk result (λ shelf. (world_of shelf).said ≡ []) }
        ensures complained { IfOk result (λ shelf. (world_of shelf).complained ≡ []) }
        ensures calls { IfOk result (λ shelf. (world_of shelf).calls ≡ []) }
        ensures made { IfOk result (λ shelf. made_by shelf ≡ []) }
        ensures faults { IfOk result (λ shelf. (world_of shelf).faults ≡ []) }
        ensures failing { IfOk result (λ shelf. failing_of shelf ≡ failing.now) }
        ensures count { IfOk result (λ shelf. count_of shelf ≡ 0) }
    {
        Ok(MemShelf {
            alloc,
            files: BTreeMap::new(alloc),
            said: Vec::new(alloc),
            complained: Vec::new(alloc),
            calls: CallLog::new(),
            made: Vec::new(alloc),
            faults: Vec::new(alloc),
            failing: Vec::from_slice(alloc, failing)?,
            count: 0,
        })
    }

    /// Puts the bytes under `name` without counting as a call.
    pub fn put(&mut self, name: &str, bytes: &[u8]) -> Result<(), AllocError>
        ensures put { OnOk result (held_by self.new name.now ≡ Some bytes.now) }
        ensures others { SameBut name.now (held_by self.old) (held_by self.new) }
        ensures refused { OnErr result (held_by self.new ≡ held_by self.old) }
        ensures same_said { (world_of self.new).said ≡ (world_of self.old).said }
        ensures same_complained { (world_of self.new).complained ≡ (world_of self.old).complained }
        ensures same_calls { (world_of self.new).calls ≡ (world_of self.old).calls }
        ensures same_made { made_by self.new ≡ made_by self.old }
        ensures same_faults { (world_of self.new).faults ≡ (world_of self.old).faults }
        ensures same_failing { failing_of self.new ≡ failing_of self.old }
        ensures same_count { count_of self.new ≡ count_of self.old }
    {
        let key = String::from_str(self.alloc, name)?;
        let bytes = Vec::from_slice(self.alloc, bytes)?;
        self.files.insert(key, bytes)?;
        Ok(())
    }

    // Reading.

    /// The bytes under `name`, or `None` where there are none.
    pub fn held(&self, name: &str) -> Option<&[u8]>
        ensures { option_copied result ≡ held_by self.now name.now }
    {
        match self.files.get(name) {
            None => None,
            Some(bytes) => Some(bytes.as_slice()),
        }
    }

    /// What was said so far.
    pub fn said(&self) -> &[u8]
        ensures { result.now ≡ (world_of self.now).said }
    {
        self.said.as_slice()
    }

    /// What was complained so far.
    pub fn complained(&self) -> &[u8]
        ensures { result.now ≡ (world_of self.now).complained }
    {
        self.complained.as_slice()
    }

    /// The calls that were made, in order, but for those that found no memory for their entries. It is for tests: contracts
    /// speak of the calls of the shelf's world.
    pub fn calls(&self) -> &[CallMade]
        ensures { result.now ≡ made_by self.now }
    {
        self.made.as_slice()
    }

    /// The calls that failed, in order.
    pub fn faults(&self) -> &[Fault]
        ensures { result.now ≡ (world_of self.now).faults }
    {
        self.faults.as_slice()
    }

    /// Counts a call, and tells whether it is to fail. The count stands still at its type's end.
    fn counts(&mut self) -> bool
        ensures fails { result ≡ next_fails self.old }
        ensures count { count_of self.new ≡ min (count_of self.old + 1) (2 ^ 64 - 1) }
        ensures same_failing { failing_of self.new ≡ failing_of self.old }
        ensures same_files { self.new.files ≡ self.old.files }
        ensures same_said { self.new.said ≡ self.old.said }
        ensures same_complained { self.new.complained ≡ self.old.complained }
        ensures same_calls { self.new.calls ≡ self.old.calls }
        ensures same_made { self.new.made ≡ self.old.made }
        ensures same_faults { self.new.faults ≡ self.old.faults }
    {
        let number = self.count;
        self.count = self.count.saturating_add(1);
        self.failing.iter().any(|failing| *failing == number)
    }
}

impl MemShelf {
    /// Records a call that failed.
    fn note(&mut self, call: Call, name: &[u8]) -> Result<(), AllocError>
        ensures noted { OnOk result ((world_of self.new).faults ≡ (world_of self.old).faults ++ one_fault call name.now) }
        ensures refused { OnErr result ((world_of self.new).faults ≡ (world_of self.old).faults) }
        ensures same_files { self.new.files ≡ self.old.files }
        ensures same_said { (world_of self.new).said ≡ (world_of self.old).said }
        ensures same_complained { (world_of self.new).complained ≡ (world_of self.old).complained }
        ensures same_calls { (world_of self.new).calls ≡ (world_of self.old).calls }
        ensures same_made { made_by self.new ≡ made_by self.old }
        ensures same_failing { failing_of self.new ≡ failing_of self.old }
        ensures same_count { count_of self.new ≡ count_of self.old }
    {
        let name = FileName::new(self.alloc, name)?;
        self.faults.push(Fault { call, name })?;
        Ok(())
    }

    /// Begins a call: counts it, lists it, and tells whether it is to fail.
    fn begin(&mut self, call: Call, name: &[u8]) -> Result<bool, AllocError>
        ensures fails { IfOk result (λ fails. fails ≡ next_fails self.old) }
        ensures made { OnOk result (made_by self.new ≡ made_by self.old ++ one_call call name.now) }
        ensures refused { OnErr result (made_by self.new ≡ made_by self.old) }
        ensures same_calls { (world_of self.new).calls ≡ (world_of self.old).calls }
        ensures count { count_of self.new ≡ min (count_of self.old + 1) (2 ^ 64 - 1) }
        ensures same_failing { failing_of self.new ≡ failing_of self.old }
        ensures same_files { self.new.files ≡ self.old.files }
        ensures same_said { (world_of self.new).said ≡ (world_of self.old).said }
        ensures same_complained { (world_of self.new).complained ≡ (world_of self.old).complained }
        ensures same_faults { (world_of self.new).faults ≡ (world_of self.old).faults }
    {
        let fails = self.counts();
        let name = FileName::new(self.alloc, name)?;
        self.made.push(CallMade { call, name })?;
        Ok(fails)
    }
}

/// The four calls, before they are listed with what they answered.
impl MemShelf {
    fn load_held(&mut self, name: &str, limit: u64, into: &mut Vec<u8>) -> Result<(), LoadFault>
        ensures fails { LoadFailsWhere (next_fails self.old || is_none (held_by self.old name.now)) result }
        ensures answer { LoadAnswers (held_by self.old name.now) limit into.new.items result }
        ensures within { OnOk result (length into.new.items ≤ limit) }
        ensures refused { OnErr result (into.new.items ≡ []) }
        ensures same_held { held_by self.new ≡ held_by self.old }
        ensures same_said { (world_of self.new).said ≡ (world_of self.old).said }
        ensures same_complained { (world_of self.new).complained ≡ (world_of self.old).complained }
        ensures same_calls { (world_of self.new).calls ≡ (world_of self.old).calls }
        ensures made { ListsLoad name.now (made_by self.old) (made_by self.new) result }
        ensures failed { (world_of self.new).faults ≡ (world_of self.old).faults ++ load_faults name.now result }
        ensures same_failing { failing_of self.new ≡ failing_of self.old }
        ensures count { count_of self.new ≡ min (count_of self.old + 1) (2 ^ 64 - 1) }
    {
        into.clear();
        if self.begin(Call::Load, name.as_bytes())? {
            self.note(Call::Load, name.as_bytes())?;
            return Err(LoadFault::Failed);
        }
        let Some(bytes) = self.files.get(name) else {
            self.note(Call::Load, name.as_bytes())?;
            return Err(LoadFault::Failed);
        };
        if bytes.len() as u64 > limit {
            return Err(LoadFault::TooLong);
        }
        into.extend_from_slice(bytes)?;
        Ok(())
    }

    fn store_held(&mut self, name: &str, bytes: &[u8]) -> Result<(), StoreFault>
        ensures fails { FailsWhere (next_fails self.old) result }
        ensures stored { OnOk result (held_by self.new name.now ≡ Some bytes.now) }
        ensures refused { OnErr result (held_by self.new ≡ held_by self.old) }
        ensures others { SameBut name.now (held_by self.old) (held_by self.new) }
        ensures same_said { (world_of self.new).said ≡ (world_of self.old).said }
        ensures same_complained { (world_of self.new).complained ≡ (world_of self.old).complained }
        ensures same_calls { (world_of self.new).calls ≡ (world_of self.old).calls }
        ensures made { Lists Store name.now (made_by self.old) (made_by self.new) result }
        ensures failed { (world_of self.new).faults ≡ (world_of self.old).faults ++ call_faults Store name.now result }
        ensures same_failing { failing_of self.new ≡ failing_of self.old }
        ensures count { count_of self.new ≡ min (count_of self.old + 1) (2 ^ 64 - 1) }
    {
        if self.begin(Call::Store, name.as_bytes())? {
            self.note(Call::Store, name.as_bytes())?;
            return Err(StoreFault::Failed);
        }
        self.put(name, bytes)?;
        Ok(())
    }

    fn say_more(&mut self, bytes: &[u8]) -> Result<(), StoreFault>
        ensures fails { FailsWhere (next_fails self.old) result }
        ensures said { Appends (world_of self.old).said (world_of self.new).said bytes.now result }
        ensures refused { OnErr result ((world_of self.new).said ≡ (world_of self.old).said) }
        ensures same_held { held_by self.new ≡ held_by self.old }
        ensures same_complained { (world_of self.new).complained ≡ (world_of self.old).complained }
        ensures same_calls { (world_of self.new).calls ≡ (world_of self.old).calls }
        ensures made { Lists Say [] (made_by self.old) (made_by self.new) result }
        ensures failed { (world_of self.new).faults ≡ (world_of self.old).faults ++ call_faults Say [] result }
        ensures same_failing { failing_of self.new ≡ failing_of self.old }
        ensures count { count_of self.new ≡ min (count_of self.old + 1) (2 ^ 64 - 1) }
    {
        if self.begin(Call::Say, b"")? {
            self.note(Call::Say, b"")?;
            return Err(StoreFault::Failed);
        }
        self.said.extend_from_slice(bytes)?;
        Ok(())
    }

    fn complain_more(&mut self, bytes: &[u8]) -> Result<(), StoreFault>
        ensures fails { FailsWhere (next_fails self.old) result }
        ensures complained { Appends (world_of self.old).complained (world_of self.new).complained bytes.now result }
        ensures refused { OnErr result ((world_of self.new).complained ≡ (world_of self.old).complained) }
        ensures same_held { held_by self.new ≡ held_by self.old }
        ensures same_said { (world_of self.new).said ≡ (world_of self.old).said }
        ensures same_calls { (world_of self.new).calls ≡ (world_of self.old).calls }
        ensures made { Lists Complain [] (made_by self.old) (made_by self.new) result }
        ensures failed { (world_of self.new).faults ≡ (world_of self.old).faults ++ call_faults Complain [] result }
        ensures same_failing { failing_of self.new ≡ failing_of self.old }
        ensures count { count_of self.new ≡ min (count_of self.old + 1) (2 ^ 64 - 1) }
    {
        if self.begin(Call::Complain, b"")? {
            self.note(Call::Complain, b"")?;
            return Err(StoreFault::Failed);
        }
        self.complained.extend_from_slice(bytes)?;
        Ok(())
    }
}

impl Shelf for MemShelf {
    ghost world = { world_of };

    fn load(&mut self, name: &str, limit: u64, into: &mut Vec<u8>) -> Result<(), LoadFault>
        ensures fails { LoadFailsWhere (next_fails self.old || is_none (held_by self.old name.now)) result }
        ensures answer { LoadAnswers (held_by self.old name.now) limit into.new.items result }
        ensures within { OnOk result (length into.new.items ≤ limit) }
        ensures refused { OnErr result (into.new.items ≡ []) }
        ensures same_held { held_by self.new ≡ held_by self.old }
        ensures same_said { (world_of self.new).said ≡ (world_of self.old).said }
        ensures same_complained { (world_of self.new).complained ≡ (world_of self.old).complained }
        ensures listed { (world_of self.new).calls ≡ (world_of self.old).calls ++ Loaded name.now limit (load_given into.new.items result) ∷ [] }
        ensures made { ListsLoad name.now (made_by self.old) (made_by self.new) result }
        ensures failed { (world_of self.new).faults ≡ (world_of self.old).faults ++ load_faults name.now result }
        ensures same_failing { failing_of self.new ≡ failing_of self.old }
        ensures count { count_of self.new ≡ min (count_of self.old + 1) (2 ^ 64 - 1) }
    {
        let answer = self.load_held(name, limit, into);
        self.calls.add_load(name, limit, into.as_slice(), answer);
        answer
    }

    fn store(&mut self, name: &str, bytes: &[u8]) -> Result<(), StoreFault>
        ensures fails { FailsWhere (next_fails self.old) result }
        ensures stored { OnOk result (held_by self.new name.now ≡ Some bytes.now) }
        ensures refused { OnErr result (held_by self.new ≡ held_by self.old) }
        ensures others { SameBut name.now (held_by self.old) (held_by self.new) }
        ensures same_said { (world_of self.new).said ≡ (world_of self.old).said }
        ensures same_complained { (world_of self.new).complained ≡ (world_of self.old).complained }
        ensures listed { (world_of self.new).calls ≡ (world_of self.old).calls ++ Stored name.now bytes.now result ∷ [] }
        ensures made { Lists Store name.now (made_by self.old) (made_by self.new) result }
        ensures failed { (world_of self.new).faults ≡ (world_of self.old).faults ++ call_faults Store name.now result }
        ensures same_failing { failing_of self.new ≡ failing_of self.old }
        ensures count { count_of self.new ≡ min (count_of self.old + 1) (2 ^ 64 - 1) }
    {
        let answer = self.store_held(name, bytes);
        self.calls.add(&Answered::Stored(name, bytes, answer));
        answer
    }

    fn say(&mut self, bytes: &[u8]) -> Result<(), StoreFault>
        ensures fails { FailsWhere (next_fails self.old) result }
        ensures said { Appends (world_of self.old).said (world_of self.new).said bytes.now result }
        ensures refused { OnErr result ((world_of self.new).said ≡ (world_of self.old).said) }
        ensures same_held { held_by self.new ≡ held_by self.old }
        ensures same_complained { (world_of self.new).complained ≡ (world_of self.old).complained }
        ensures listed { (world_of self.new).calls ≡ (world_of self.old).calls ++ Said bytes.now result ∷ [] }
        ensures made { Lists Say [] (made_by self.old) (made_by self.new) result }
        ensures failed { (world_of self.new).faults ≡ (world_of self.old).faults ++ call_faults Say [] result }
        ensures same_failing { failing_of self.new ≡ failing_of self.old }
        ensures count { count_of self.new ≡ min (count_of self.old + 1) (2 ^ 64 - 1) }
    {
        let answer = self.say_more(bytes);
        self.calls.add(&Answered::Said(bytes, answer));
        answer
    }

    fn complain(&mut self, bytes: &[u8]) -> Result<(), StoreFault>
        ensures fails { FailsWhere (next_fails self.old) result }
        ensures complained { Appends (world_of self.old).complained (world_of self.new).complained bytes.now result }
        ensures refused { OnErr result ((world_of self.new).complained ≡ (world_of self.old).complained) }
        ensures same_held { held_by self.new ≡ held_by self.old }
        ensures same_said { (world_of self.new).said ≡ (world_of self.old).said }
        ensures listed { (world_of self.new).calls ≡ (world_of self.old).calls ++ Complained bytes.now result ∷ [] }
        ensures made { Lists Complain [] (made_by self.old) (made_by self.new) result }
        ensures failed { (world_of self.new).faults ≡ (world_of self.old).faults ++ call_faults Complain [] result }
        ensures same_failing { failing_of self.new ≡ failing_of self.old }
        ensures count { count_of self.new ≡ min (count_of self.old + 1) (2 ^ 64 - 1) }
    {
        let answer = self.complain_more(bytes);
        self.calls.add(&Answered::Complained(bytes, answer));
        answer
    }
}
