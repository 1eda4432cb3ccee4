// What can be wrong with scenarios, files and reports, and what there can be too much of.
ghost use Rattle.std.specs.Prelude.{Some};
ghost use Rattle.command_refusals.specs.Faults.{quantity_word, scenario_text, file_text, report_text};

use crate::ShownWord;
use process_tree::Name;
use std::fmt;

/// What there is too much of.
#[derive(Clone, Copy, Debug, PartialEq, Eq)]
pub enum Quantity {
    /// Bytes of the input.
    Input,
    Operations,
    /// Processes of a journal.
    Processes,
    /// Active processes.
    Active,
    /// Acts and ends of a journal, done and reserved.
    Entries,
}

impl fmt::Display for Quantity {
    ghost output = { λ q. Some (quantity_word q) };

    fn fmt<W: fmt::Write>(&self, f: &mut fmt::Formatter<W>) -> fmt::Result {
        f.write_str(match self {
            Quantity::Input => "input",
            Quantity::Operations => "operations",
            Quantity::Processes => "processes",
            Quantity::Active => "active",
            Quantity::Entries => "entries",
        })
    }
}

/// What is wrong first with a scenario.
#[derive(Drop)]
pub enum ScenarioFault {
    /// It is no TOML document.
    BadToml,
    /// This key is unknown, missing, of another type or out of range.
    BadKey(ShownWord),
    /// There is no operation of this name, which a conflict or a step has.
    UnknownOperation(ShownWord),
    /// Two operations have this name.
    SameOperation(Name),
}

impl fmt::Display for ScenarioFault {
    ghost output = { λ e. Some (scenario_text e) };

    fn fmt<W: fmt::Write>(&self, f: &mut fmt::Formatter<W>) -> fmt::Result {
        match self {
            ScenarioFault::BadToml => f.write_str("bad toml"),
            ScenarioFault::BadKey(key) => write!(f, "bad key {key}"),
            ScenarioFault::UnknownOperation(name) => write!(f, "unknown operation {name}"),
            ScenarioFault::SameOperation(name) => write!(f, "same operation {name}"),
        }
    }
}

/// What is wrong first with the files. Files are numbered from 0, and records from 1.
#[derive(Clone, Copy, Debug, PartialEq, Eq)]
pub enum FileFault {
    /// This file is to be made and is not empty.
    NotEmpty(u8),
    /// This file has no header of a log.
    BadHeader(u8),
    /// The first record of this file that is not whole or has no form of a record in its place.
    BadRecord(u8, u32),
    /// The first record of file 0 that does not continue a legal history within the limits.
    BadHistory(u32),
    /// The first record of this store that is out of its place.
    BadBook(u8, u32),
}

impl fmt::Display for FileFault {
    ghost output = { λ e. Some (file_text e) };

    fn fmt<W: fmt::Write>(&self, f: &mut fmt::Formatter<W>) -> fmt::Result {
        match self {
            FileFault::NotEmpty(file) => write!(f, "not empty file {file}"),
            FileFault::BadHeader(file) => write!(f, "bad header file {file}"),
            FileFault::BadRecord(file, n) => write!(f, "bad record file {file} at {n}"),
            FileFault::BadHistory(n) => write!(f, "bad history at record {n}"),
            FileFault::BadBook(file, n) => write!(f, "bad book file {file} at record {n}"),
        }
    }
}

/// Why a report is not accepted. Lines, steps and places are counted from 1.
#[derive(Clone, Copy, Debug, PartialEq, Eq)]
pub enum ReportFault {
    /// The first line that is not what its place wants.
    BadText(u32),
    /// The first step that doesn't apply.
    StepRefused(u32),
    /// The first place of the last list that is out of place.
    NotSerial(u32),
    /// The first place at which the printed list is another than the last.
    SerialDiffers(u32),
}

impl fmt::Display for ReportFault {
    ghost output = { λ e. Some (report_text e) };

    fn fmt<W: fmt::Write>(&self, f: &mut fmt::Formatter<W>) -> fmt::Result {
        match self {
            ReportFault::BadText(n) => write!(f, "bad text at line {n}"),
            ReportFault::StepRefused(k) => write!(f, "step {k} refused"),
            ReportFault::NotSerial(n) => write!(f, "not serial at {n}"),
            ReportFault::SerialDiffers(n) => write!(f, "serial differs at {n}"),
        }
    }
}
