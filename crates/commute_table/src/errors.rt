// Why there is no scenario, no catalog or no plan.
ghost use Rattle.std.specs.Prelude.{◌≡◌, Some};
ghost use Rattle.commute_table.specs.Errors.{catalog_text, scenario_text, bind_text};
ghost use Rattle.commute_table.specs.declared.errors.CatalogError.TheVariants as catalog;
ghost use Rattle.commute_table.specs.declared.errors.ScenarioError.TheVariants as scenario;
ghost use Rattle.commute_table.specs.declared.errors.BindError.TheVariants as bind;

use crate::Word;
use process_tree::Name;
use std::alloc::{AllocError, AllocFailed};
use std::error::Error;
use std::fmt;

/// Why bytes made no catalog.
#[derive(Clone, Copy, Debug, PartialEq, Eq)]
pub enum CatalogError {
    /// This byte, counted from 0, is the first that rules out every catalog.
    BadCatalog(u32),
    NoMemory,
}

impl fmt::Display for CatalogError {
    ghost output = { λ e. Some (catalog_text e) };

    fn fmt<W: fmt::Write>(&self, f: &mut fmt::Formatter<W>) -> fmt::Result {
        match *self {
            CatalogError::BadCatalog(n) => write!(f, "no catalog from byte {n} on"),
            CatalogError::NoMemory => f.write_str("out of memory"),
        }
    }
}

impl Error for CatalogError {}

/// Why a document made no scenario: the first refusal in the order of `scenario_said` in `specs/Document`.
#[derive(Drop)]
pub enum ScenarioError {
    /// It is no TOML document.
    BadToml,
    /// This key is unknown, missing, of another type or out of range.
    BadKey(Word),
    /// A conflict names this operation, which there isn't.
    UnknownOp(Word),
    /// An earlier operation has this name too.
    SameOp(Name),
    /// There are this many operations, which is more than 256.
    Ops(u32),
    NoMemory,
}

impl fmt::Display for ScenarioError {
    ghost output = { λ e. Some (scenario_text e) };

    fn fmt<W: fmt::Write>(&self, f: &mut fmt::Formatter<W>) -> fmt::Result {
        match self {
            ScenarioError::BadToml => f.write_str("no TOML document"),
            ScenarioError::BadKey(_) => f.write_str("a key is unknown, missing or out of range"),
            ScenarioError::UnknownOp(_) => f.write_str("a conflict names an unknown operation"),
            ScenarioError::SameOp(_) => f.write_str("two operations have one name"),
            ScenarioError::Ops(n) => write!(f, "there are {n} operations"),
            ScenarioError::NoMemory => f.write_str("out of memory"),
        }
    }
}

impl fmt::Debug for ScenarioError {
    ghost debug_output = { λ e. Some (scenario_text e) };

    fn fmt<W: fmt::Write>(&self, f: &mut fmt::Formatter<W>) -> fmt::Result {
        fmt::Display::fmt(self, f)
    }
}

impl Error for ScenarioError {}

impl From<AllocError> for ScenarioError {
    ghost from_gives = { λ _ e. e ≡ scenario.NoMemory };

    fn from(_: AllocError) -> Self {
        ScenarioError::NoMemory
    }
}

impl<T: Drop> From<AllocFailed<T>> for ScenarioError {
    ghost from_gives = { λ _ e. e ≡ scenario.NoMemory };

    fn from(_: AllocFailed<T>) -> Self {
        ScenarioError::NoMemory
    }
}

/// Why a process made no plan.
#[derive(Drop)]
pub enum BindError {
    /// The first step whose operation isn't in the catalog has this one.
    UnknownOp(Name),
    NoMemory,
}

impl fmt::Display for BindError {
    ghost output = { λ e. Some (bind_text e) };

    fn fmt<W: fmt::Write>(&self, f: &mut fmt::Formatter<W>) -> fmt::Result {
        f.write_str(match self {
            BindError::UnknownOp(_) => "a step has an unknown operation",
            BindError::NoMemory => "out of memory",
        })
    }
}

impl fmt::Debug for BindError {
    ghost debug_output = { λ e. Some (bind_text e) };

    fn fmt<W: fmt::Write>(&self, f: &mut fmt::Formatter<W>) -> fmt::Result {
        fmt::Display::fmt(self, f)
    }
}

impl Error for BindError {}

impl From<AllocError> for BindError {
    ghost from_gives = { λ _ e. e ≡ bind.NoMemory };

    fn from(_: AllocError) -> Self {
        BindError::NoMemory
    }
}

impl<T: Drop> From<AllocFailed<T>> for BindError {
    ghost from_gives = { λ _ e. e ≡ bind.NoMemory };

    fn from(_: AllocFailed<T>) -> Self {
        BindError::NoMemory
    }
}
