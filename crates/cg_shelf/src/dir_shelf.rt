//! The trusted edge: real files, standard output and standard error, which give or take a part of a text at a time.

ghost use Rattle.std.specs.Prelude.{◌≡◌, ◌≤◌, ◌++◌, [], None, false, length, OnOk, OnErr, ◌<◌, Err, IfSome};
ghost use Rattle.cg_shelf.specs.Shelf.{load_faults, call_faults, one_fault};
ghost use Rattle.cg_shelf.specs.declared.faults.Call.TheVariants.{Store, Say, Complain};
ghost use Rattle.std.specs.Io.KnownBytes.{Appends};
ghost use Rattle.cg_shelf.specs.Transfer.{AppendsPart};

use crate::call_log::{Answered, CallLog};
use crate::calls::Shelf;
use crate::faults::{Call, Fault, FileName, LoadFault, StoreFault};
use std::alloc::{AllocError, Global};
use std::io::{Read, Write};
use std::rt::Runtime;
use std::{fs, io};

/// A shelf over the files of the system, standard output, and a writer for complaints.
///
/// The writer is the standard error that the program was started with: opened anew it would have a place of its own
/// in a file, and others that write there would write over the complaint.
///
/// It tells nothing of content, since nothing can be proved of what the system holds. What its calls were asked for and
/// answered is exact, so the bytes that a load gave are known; that these are what the system holds no clause says. It
/// keeps the list of its failed calls. Every error of the system fails the call, an interrupted read or write among them. That it
/// reads and writes whole files is proved of its loops over any reader and writer.
#[derive(Drop)]
pub struct DirShelf<R: Runtime, E: Write + Drop> {
    rt: R,
    errors: E,
    alloc: Global,
    calls: CallLog,
    faults: Vec<Fault>,
}

impl<R: Runtime, E: Write + Drop> DirShelf<R, E> {
    /// A shelf over this runtime that complains to this writer. It was asked for nothing yet, and has failed in nothing.
    pub fn new(rt: R, errors: E, alloc: Global) -> DirShelf<R, E>
        ensures calls { result.calls.listed ≡ [] }
        ensures faults { result.faults.items ≡ [] }
    {
        DirShelf {
            rt,
            errors,
            alloc,
            calls: CallLog::new(),
            faults: Vec::new(alloc),
        }
    }

    /// Reads a file to its end.
    fn read_file(&self, name: &str, limit: u64, into: &mut Vec<u8>) -> Result<(), LoadFault>
        requires { into.old.items ≡ [] }
        ensures { OnOk result (length into.new.items ≤ limit) }
    {
        let Ok(mut file) = fs::open(&self.rt, name) else {
            return Err(LoadFault::Failed);
        };
        read_whole(&mut file, limit, into)
    }

    /// Reads a file into a list that is emptied first, and after a refusal is empty.
    fn load_file(&mut self, name: &str, limit: u64, into: &mut Vec<u8>) -> Result<(), LoadFault>
        ensures within { OnOk result (length into.new.items ≤ limit) }
        ensures refused { OnErr result (into.new.items ≡ []) }
        ensures failed { self.new.faults.items ≡ self.old.faults.items ++ load_faults name.now result }
        ensures same_calls { self.new.calls ≡ self.old.calls }
    {
        into.clear();
        match self.read_file(name, limit, into) {
            Ok(()) => Ok(()),
            Err(fault) => {
                into.clear();
                self.note_load(name, fault)
            }
        }
    }

    fn write_file(&self, name: &str, bytes: &[u8]) -> Result<(), StoreFault> {
        match fs::create(&self.rt, name) {
            Ok(mut file) => write_whole(&mut file, bytes),
            Err(_) => Err(StoreFault::Failed),
        }
    }

    /// Records a load that failed.
    fn note_load(&mut self, name: &str, fault: LoadFault) -> Result<(), LoadFault>
        ensures failed { self.new.faults.items ≡ self.old.faults.items ++ load_faults name.now result }
        ensures refused { OnOk result ⊥ }
        ensures same_calls { self.new.calls ≡ self.old.calls }
    {
        if fault == LoadFault::Failed {
            self.note(Call::Load, name.as_bytes())?;
        }
        Err(fault)
    }

    /// Records a call that failed, and hands its answer on.
    fn note_store(
        &mut self,
        call: Call,
        name: &[u8],
        answer: Result<(), StoreFault>,
    ) -> Result<(), StoreFault>
        ensures failed { self.new.faults.items ≡ self.old.faults.items ++ call_faults call name.now result }
        ensures same_calls { self.new.calls ≡ self.old.calls }
    {
        if answer == Err(StoreFault::Failed) {
            self.note(call, name)?;
        }
        answer
    }

    fn note(&mut self, call: Call, name: &[u8]) -> Result<(), AllocError>
        ensures noted { OnOk result (self.new.faults.items ≡ self.old.faults.items ++ one_fault call name.now) }
        ensures refused { OnErr result (self.new.faults.items ≡ self.old.faults.items) }
        ensures same_calls { self.new.calls ≡ self.old.calls }
    {
        let name = FileName::new(self.alloc, name)?;
        self.faults.push(Fault { call, name })?;
        Ok(())
    }
}

impl<R: Runtime, E: Write + Drop> Shelf for DirShelf<R, E> {
    ghost world = { λ shelf. record {
      tells = false;
      held = λ _. None;
      said = [];
      complained = [];
      calls = shelf.calls.listed;
      faults = shelf.faults.items;
    } };

    fn load(&mut self, name: &str, limit: u64, into: &mut Vec<u8>) -> Result<(), LoadFault> {
        let answer = self.load_file(name, limit, into);
        self.calls.add_load(name, limit, into.as_slice(), answer);
        answer
    }

    fn store(&mut self, name: &str, bytes: &[u8]) -> Result<(), StoreFault> {
        let answer = self.write_file(name, bytes);
        let answer = self.note_store(Call::Store, name.as_bytes(), answer);
        self.calls.add(&Answered::Stored(name, bytes, answer));
        answer
    }

    fn say(&mut self, bytes: &[u8]) -> Result<(), StoreFault> {
        let answer = write_whole(&mut io::writer(&self.rt), bytes);
        let answer = self.note_store(Call::Say, b"", answer);
        self.calls.add(&Answered::Said(bytes, answer));
        answer
    }

    fn complain(&mut self, bytes: &[u8]) -> Result<(), StoreFault> {
        let answer = write_whole(&mut self.errors, bytes);
        let answer = self.note_store(Call::Complain, b"", answer);
        self.calls.add(&Answered::Complained(bytes, answer));
        answer
    }
}

/// How many bytes one read asks for.
const CHUNK: usize = 65536;

/// Reads all bytes that the reader has left into an empty list, and refuses with `TooLong` more than `limit` bytes.
///
/// It ends after at most `limit` + 2 reads, since each but the last gives a byte. Every error of the reader fails the
/// call, an interrupted read among them.
fn read_whole<R: Read>(from: &mut R, limit: u64, into: &mut Vec<u8>) -> Result<(), LoadFault>
    requires { into.old.items ≡ [] }
    ensures whole { OnOk result (IfSome (R.remaining from.old) (λ bytes. into.new.items ≡ bytes)) }
    ensures within { OnOk result (length into.new.items ≤ limit) }
    ensures longer { result ≡ Err LoadFault.TooLong → IfSome (R.remaining from.old) (λ bytes. limit < length bytes) }
{
    let mut chunk = [0u8; CHUNK];
    'reads: loop {
        let Ok(count) = from.read(&mut chunk) else {
            return Err(LoadFault::Failed);
        };
        if count == 0 {
            return Ok(());
        }
        if count as u64 > limit - into.len() as u64 {
            return Err(LoadFault::TooLong);
        }
        into.extend_from_slice(&chunk[..count])?;
    }
}

/// Writes all of the bytes, in at most one turn for each byte. After a refusal the writer took a front part of them.
///
/// A write that takes nothing of a piece that is not empty is a fault, and so is every error of the writer, an
/// interrupted write among them.
fn write_whole<W: Write>(to: &mut W, bytes: &[u8]) -> Result<(), StoreFault>
    ensures whole { OnOk result (Appends (W.contents to.old) (W.contents to.new) bytes.now) }
    ensures part { OnErr result (AppendsPart (W.contents to.old) (W.contents to.new) bytes.now) }
    ensures failed { OnErr result (result ≡ Err StoreFault.Failed) }
{
    let mut rest = bytes;
    'writes: while !rest.is_empty() {
        match to.write(rest) {
            Ok(0) | Err(_) => return Err(StoreFault::Failed),
            Ok(count) => rest = &rest[count..],
        }
    }
    Ok(())
}
