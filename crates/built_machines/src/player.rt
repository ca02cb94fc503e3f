//! Who plays a script.

use crate::bench::Bench;
use cg_shelf::Shelf;
use std::alloc::Global;

/// The most bytes of a file of the folder.
const MOST_BYTES: u64 = 1_048_576;

/// Who plays a script: the machine that was begun last is the one that is built.
#[derive(Drop)]
pub struct Player {
    alloc: Global,
    bench: Option<Bench>,
}

impl Player {
    /// With no machine.
    pub fn new(alloc: Global) -> Player {
        Player { alloc, bench: None }
    }

    /// Plays one line, and says on the shelf what comes of it.
    pub fn line<S: Shelf>(&mut self, folder: &mut S, line: &str) -> Result<(), ()> {
        say(folder, line.as_bytes())?;
        say(folder, b"\n")?;
        let words = line
            .split_whitespace()
            .collect::<Vec<&str>>(self.alloc)
            .map_err(|_| ())?;
        match words.as_slice() {
            [] | ["#", ..] => Ok(()),
            ["machine", library, netlist] => self.begin(folder, library, netlist),
            ["plan"] => self.plan(folder),
            words => self.step(folder, words),
        }
    }

    /// Begins with the machine of a netlist, read with a library.
    fn begin<S: Shelf>(&mut self, folder: &mut S, library: &str, netlist: &str) -> Result<(), ()> {
        let library = load(self.alloc, folder, library)?;
        let netlist = load(self.alloc, folder, netlist)?;
        let bench = Bench::new(self.alloc, library.as_slice(), netlist.as_slice())?;
        self.bench = Some(bench);
        Ok(())
    }

    /// Plans the machine, which is done with.
    fn plan<S: Shelf>(&mut self, folder: &mut S) -> Result<(), ()> {
        match self.bench.take() {
            None => Err(()),
            Some(bench) => {
                let text = bench.plan()?;
                say(folder, text.as_slice())
            }
        }
    }

    /// Plays a step on the machine.
    fn step<S: Shelf>(&mut self, folder: &mut S, words: &[&str]) -> Result<(), ()> {
        match &mut self.bench {
            None => Err(()),
            Some(bench) => {
                let text = bench.step(words)?;
                say(folder, text.as_slice())
            }
        }
    }
}

/// What a file of the folder holds.
pub fn load<S: Shelf>(alloc: Global, folder: &mut S, name: &str) -> Result<Vec<u8>, ()> {
    let mut bytes = Vec::new(alloc);
    match folder.load(name, MOST_BYTES, &mut bytes) {
        Ok(()) => Ok(bytes),
        Err(_) => Err(()),
    }
}

/// Says a text.
fn say<S: Shelf>(folder: &mut S, text: &[u8]) -> Result<(), ()> {
    folder.say(text).map_err(|_| ())
}
