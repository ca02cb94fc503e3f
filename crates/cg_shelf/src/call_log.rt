//! The calls of a shelf with what each answered. They exist only in proofs.

ghost use Rattle.std.specs.Prelude.{◌≡◌, []};
ghost use base.Fml.{ftrue};
ghost use Rattle.cg_shelf.specs.Asked.{Calls, calls_code};

use crate::faults::{LoadFault, StoreFault};
use std::marker::Model;

/// All calls so far, in order. It takes no bytes.
#[derive(Drop)]
pub(crate) struct CallLog {
    ghost listed: { Calls } by { calls_code },
}

impl Model for CallLog {
    ghost also_owns = { λ _. ftrue };
}

/// One call, with what it was asked for and what it answered.
#[derive(Clone, Copy, Drop)]
pub(crate) enum Answered<'a> {
    /// The bytes that the load of a name gave, with its limit.
    Loaded(&'a str, u64, &'a [u8]),
    /// Why the load of a name gave none, with its limit.
    Unloaded(&'a str, u64, LoadFault),
    /// What the store of bytes under a name answered.
    Stored(&'a str, &'a [u8], Result<(), StoreFault>),
    Said(&'a [u8], Result<(), StoreFault>),
    Complained(&'a [u8], Result<(), StoreFault>),
}

impl CallLog {
    ghost use Rattle.std.specs.Prelude.{◌++◌, ◌∷◌};
    ghost use Rattle.cg_shelf.specs.Answered.{noted};
    ghost use Rattle.cg_shelf.specs.Asked.{Loaded};
    ghost use Rattle.cg_shelf.specs.Shelf.{load_given};

    /// No call was made yet.
    pub(crate) fn new() -> CallLog
        ensures { result.listed ≡ [] }
    {
        CallLog {}
    }

    /// With one more call.
    #[inline(always)]
    pub(crate) fn then(&self, _call: &Answered<'_>) -> CallLog
        ensures { result.listed ≡ noted self.now.listed _call.now }
    {
        CallLog {}
    }

    /// Lists one more call.
    pub(crate) fn add(&mut self, call: &Answered<'_>)
        ensures { self.new.listed ≡ noted self.old.listed call.now }
    {
        *self = self.then(call);
    }

    /// Lists one more load, with the bytes that it gave or why it gave none.
    pub(crate) fn add_load(
        &mut self,
        name: &str,
        limit: u64,
        bytes: &[u8],
        answer: Result<(), LoadFault>,
    )
        ensures { self.new.listed ≡ self.old.listed ++ Loaded name.now limit (load_given bytes.now answer) ∷ [] }
    {
        match answer {
            Ok(()) => self.add(&Answered::Loaded(name, limit, bytes)),
            Err(fault) => self.add(&Answered::Unloaded(name, limit, fault)),
        }
    }
}
