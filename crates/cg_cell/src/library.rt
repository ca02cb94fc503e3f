//! Libraries: cells in the order of the library's text.

ghost use Rattle.std.specs.Prelude.{◌≡◌, ◌++◌, ◌∷◌, [], ◌<◌, ◌≤◌, length, position, IfOk, IfSome, OnOk, OnErr, None, Some};
ghost use Rattle.std.specs.Prelude.{slice_get, Bool, Option, ℕ};
ghost use Rattle.std.specs.List.{AllByRecursion};
ghost use Rattle.cg_cell.specs.Cell.{IsCell};
ghost use Rattle.cg_cell.specs.Fit.{is_fit};
ghost use Rattle.cg_cell.specs.Added.{Answers, add_fault};
ghost use Rattle.cg_cell.specs.Library.{AreNamed, IsFound, find_cell, first_fit, noted};
ghost use Rattle.indexmap.specs.IndexMap.{values};

use crate::cell::CellType;
use crate::fit::{FitKind, fits};
use cg_limit::{Limit, MOST_LIBRARY_CELLS};
use indexmap::IndexMap;
use std::alloc::{AllocError, Global};
use std::marker::Model;

/// A cell of a library, by its number in the order of the text. It stays the number of that cell for
/// as long as the library lives, and means nothing to another library.
#[derive(Clone, Copy, PartialEq, Eq)]
pub struct LibId(u32);

impl Model for LibId {
    ghost use Rattle.std.specs.Prelude.{ℕ};

    ghost Value = { ℕ };

    ghost view = { λ id. id.0 };

    ghost inverse = { λ n. record { 0 = n } };
}

/// Why a cell is not taken into a library.
#[derive(Debug, Drop)]
pub enum LibraryFault {
    /// A cell of that name is there.
    TwoCells,

    /// The library has as many cells as it may have.
    Limit(Limit),

    /// No memory was left.
    NoMemory,
}

impl From<AllocError> for LibraryFault {
    ghost use Rattle.std.specs.Prelude.{◌≡◌};
    ghost use Rattle.cg_cell.specs.declared.library.LibraryFault.TheVariants.{NoMemory};

    ghost from_gives = { λ _ e. e ≡ NoMemory };

    fn from(_refused: AllocError) -> LibraryFault {
        LibraryFault::NoMemory
    }
}

/// The cells of a library, in the order in which they were added. Clauses see it as that list.
#[derive(Drop)]
pub struct Library {
    cells: IndexMap<Vec<u8>, CellType>,
    gater: Option<LibId>,
    test_gater: Option<LibId>,
    inv: Option<LibId>,
    and2: Option<LibId>,
    or2: Option<LibId>,
}

impl Model for Library {
    ghost use Rattle.std.specs.Coded.{codes, coded_list};
    ghost use Rattle.std.specs.Prelude.{List, map};
    ghost use Rattle.cg_cell.specs.Cell.{CellData};
    ghost use Rattle.cg_cell.specs.Library.{IsLibrary};
    ghost use Rattle.cg_cell.specs.TermCode.{term_code};

    ghost Value = { List CellData };

    ghost coded = { Prim.hlevel (codes, term_code) };

    ghost view = { λ l. map (λ e. e.1) l.cells.entries };

    ghost invariant = { λ l. IsLibrary (λ k. k.items) l.cells.entries (map (λ e. e.1) l.cells.entries) l.gater l.test_gater l.inv l.and2 l.or2 };
}

impl Library {
    /// A library without cells.
    pub fn new(alloc: Global) -> Library
        ensures { result ≡ [] }
    {
        Library {
            cells: IndexMap::new(alloc),
            gater: None,
            test_gater: None,
            inv: None,
            and2: None,
            or2: None,
        }
    }

    /// Adds a cell behind the others, and answers its number.
    ///
    /// It is refused by `Limit(LibraryCells)` where 4,096 cells are there, and else by `TwoCells` where
    /// a cell of that name is there. A refused call changes nothing.
    pub fn add(&mut self, cell: CellType) -> Result<LibId, LibraryFault>
        ensures added { OnOk result (self.new ≡ self.old ++ cell ∷ []) }
        ensures number { IfOk result (λ id. id ≡ length self.old) }
        ensures cause { Answers result (add_fault self.old cell.name) }
        ensures unchanged { OnErr result (self.new ≡ self.old) }
    {
        self.may_take(cell.name().bytes())?;
        let id = LibId(self.cells.len() as u32);
        let gater = note(self.gater, id, fits(&cell, FitKind::Gater));
        let test_gater = note(self.test_gater, id, fits(&cell, FitKind::TestGater));
        let inv = note(self.inv, id, fits(&cell, FitKind::Inv));
        let and2 = note(self.and2, id, fits(&cell, FitKind::And2));
        let or2 = note(self.or2, id, fits(&cell, FitKind::Or2));
        push(&mut self.cells, cell)?;
        self.gater = gater;
        self.test_gater = test_gater;
        self.inv = inv;
        self.and2 = and2;
        self.or2 = or2;
        Ok(id)
    }

    /// Whether a cell of that name may be added, or what refuses it.
    fn may_take(&self, name: &[u8]) -> Result<(), LibraryFault>
        ensures cause { Answers result (add_fault self.now name.now) }
        ensures few { OnOk result (length self.now < MOST_LIBRARY_CELLS) }
        ensures absent { OnOk result (find_cell name.now self.now ≡ None) }
    {
        if self.cells.len() >= MOST_LIBRARY_CELLS {
            return Err(LibraryFault::Limit(Limit::LibraryCells));
        }
        if self.find(name).is_some() {
            return Err(LibraryFault::TwoCells);
        }
        Ok(())
    }

    /// The number of cells. Each of them is the one that stands under its name.
    pub fn len(&self) -> u32
        ensures len { result ≡ length self.now }
        ensures few { result ≤ MOST_LIBRARY_CELLS }
        ensures cells { AllByRecursion IsCell self.now }
        ensures found { AllByRecursion (IsFound self.now) self.now }
    {
        self.cells.len() as u32
    }

    /// The cell of that number.
    pub fn cell(&self, id: LibId) -> &CellType
        requires { id < length self.now }
        ensures { slice_get self.now id ≡ Some result.now }
    {
        cell_at(&self.cells, id.0 as usize)
    }

    /// The cell of that name, and None exactly where no cell has it.
    pub fn find(&self, name: &[u8]) -> Option<LibId>
        ensures found { result ≡ find_cell name.now self.now }
        ensures within { IfSome result (λ id. id < length self.now) }
    {
        self.numbered(name)
    }

    /// The cell that stands under the name.
    fn numbered(&self, name: &[u8]) -> Option<LibId>
        ensures { result ≡ find_cell name.now self.now }
    {
        match self.cells.get_index_of(name) {
            Some(index) => Some(LibId(index as u32)),
            None => None,
        }
    }

    /// The first cell of that kind, and None exactly where there is none.
    pub fn fit(&self, kind: FitKind) -> Option<LibId>
        ensures first { result ≡ first_fit kind self.now }
        ensures within { IfSome result (λ id. id < length self.now) }
    {
        self.first(kind)
    }

    /// The first cell of that kind, as it was noted.
    fn first(&self, kind: FitKind) -> Option<LibId>
        ensures { result ≡ first_fit kind self.now }
    {
        match kind {
            FitKind::Gater => self.gater,
            FitKind::TestGater => self.test_gater,
            FitKind::Inv => self.inv,
            FitKind::And2 => self.and2,
            FitKind::Or2 => self.or2,
        }
    }
}

/// The cell at an index.
fn cell_at(cells: &IndexMap<Vec<u8>, CellType>, index: usize) -> &CellType
    requires { index < length cells.now.entries }
    ensures { slice_get (values cells.now) index ≡ Some result.now }
{
    cells.get_index(index).unwrap().1
}

/// The first cell that was found, after one more is looked at.
fn note(first: Option<LibId>, id: LibId, fits: bool) -> Option<LibId>
    ensures { result ≡ noted first id fits }
{
    match first {
        Some(first) => Some(first),
        None => { if fits { Some(id) } else { None } }
    }
}

/// Puts a cell under its name, where no cell stands.
fn push(cells: &mut IndexMap<Vec<u8>, CellType>, cell: CellType) -> Result<(), AllocError>
    requires named { AreNamed (λ k. k.items) cells.old.entries }
    requires absent { find_cell cell.name (values cells.old) ≡ None }
    ensures named { AreNamed (λ k. k.items) cells.new.entries }
    ensures added { OnOk result (values cells.new ≡ values cells.old ++ cell ∷ []) }
    ensures unchanged { OnErr result (cells.new.entries ≡ cells.old.entries) }
{
    let alloc = *cells.allocator();
    let key = Vec::from_slice(alloc, cell.name().bytes())?;
    cells.insert(key, cell)?;
    Ok(())
}
