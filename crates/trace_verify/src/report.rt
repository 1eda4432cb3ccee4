// What is read of a report.
ghost use Rattle.std.specs.Prelude.{◌≡◌};
ghost use Rattle.trace_verify.specs.Reports.{unread};

use crate::form::Form;
use crate::section::Section;
use process_tree::Mode;
use schedule_model::TraceStep;
use std::alloc::Global;
use std::marker::Model;

/// An act by the names of its step and its operation, with its key.
#[derive(Drop)]
pub struct NamedAct<'a> {
    pub process: u32,
    pub step: &'a [u8],
    pub op: &'a [u8],
    pub key: u32,
    pub undo: bool,
}

impl<'a> Model for NamedAct<'a> {
    ghost use Rattle.trace_verify.specs.Forms.{NamedAct as Named};

    ghost Value = { Named };

    ghost view = { λ a. record { process = a.process; step = a.step.now; op = a.op.now; key = a.key; undo = a.undo } };
}

/// Two operations by their names, and when they conflict.
#[derive(Drop)]
pub struct Pair<'a> {
    pub first: &'a [u8],
    pub second: &'a [u8],
    pub mode: Mode,
}

impl<'a> Model for Pair<'a> {
    ghost use Rattle.trace_verify.specs.Forms.{Pair as Named};

    ghost Value = { Named };

    ghost view = { λ p. record { first = p.first.now; second = p.second.now; mode = p.mode } };
}

/// What is read of a report, and the section in which the next line stands.
#[derive(Drop)]
pub struct Report<'a> {
    pub section: Section,
    pub form: Form,
    pub pairs: Vec<Pair<'a>>,
    /// Of the history and of its completion.
    pub acts: Vec<NamedAct<'a>>,
    pub steps: Vec<TraceStep>,
    pub serial: Vec<NamedAct<'a>>,
}

impl<'a> Model for Report<'a> {
    ghost use Rattle.std.specs.Prelude.{◌≤◌, length};
    ghost use Rattle.trace_verify.specs.Reports.{Report as Read};

    ghost Value = { Read };

    ghost view = { λ r. record {
      section = r.section;
      form = r.form;
      pairs = r.pairs.items;
      acts = r.acts.items;
      steps = r.steps.items;
      serial = r.serial.items;
    } };

    ghost invariant = { λ r. (length r.acts.items ≤ 32768) × (length r.steps.items ≤ 65536) };
}

impl<'a> Report<'a> {
    /// Nothing is read.
    pub fn new(alloc: Global) -> Self
        ensures { result ≡ unread }
    {
        Report {
            section: Section::Opening,
            form: Form::Plain,
            pairs: Vec::new(alloc),
            acts: Vec::new(alloc),
            steps: Vec::new(alloc),
            serial: Vec::new(alloc),
        }
    }
}
