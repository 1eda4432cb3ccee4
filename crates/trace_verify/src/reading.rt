// Reports read line by line.
ghost use Rattle.std.specs.Prelude.{◌≡◌, ℕ, IfOk, if◌then◌else◌};
ghost use Rattle.std.specs.Option.{option_map};
ghost use Rattle.trace_verify.specs.Lines.{parts};
ghost use Rattle.trace_verify.specs.Forms.{form_of_title, pair_line, event_line, step_line, serial_line};
ghost use Rattle.trace_verify.specs.Reports.{Report as Read, in_form, with_pair, with_event, with_new_step, with_serial, with_line};
ghost use Rattle.trace_verify.specs.Reports.{after_line, opened, reading_from, at_end, whole, bad_line, IsTaken, IsRead};

use crate::cutting::cut;
use crate::forms::{
    event_line, form_of_title, is_cause_line, is_end_line, pair_line, serial_line, step_line,
};
use crate::report::Report;
use crate::section::Section;
use process_text::is_word;
use std::alloc::AllocError;

const MOST_ACTS: usize = 32768;

const MOST_STEPS: usize = 65536;

// The section that a title opens behind another.
fn opened(section: Section, line: &[u8]) -> Option<Section>
    ensures { result ≡ opened section line.now }
{
    let (title, next): (&[u8], Section) = match section {
        Section::Conflicts => (b"history", Section::History),
        Section::History => (b"completion", Section::Completion),
        Section::Completion => (b"ends", Section::Ends),
        Section::Ends => (b"causes", Section::Causes),
        Section::Causes => (b"trace", Section::Trace),
        Section::Trace => (b"serial", Section::Serial),
        Section::Opening | Section::Serial => return None,
    };
    if is_word(line, title) {
        Some(next)
    } else {
        None
    }
}

// Whether a text may end in a section, this standing behind its last line feed.
fn may_end(section: Section, rest: &[u8]) -> bool
    ensures { (r : Read) (n : ℕ) → at_end r n section rest.now ≡ (if result then whole r else bad_line n) }
{
    match section {
        Section::Serial => rest.is_empty(),
        Section::Opening
        | Section::Conflicts
        | Section::History
        | Section::Completion
        | Section::Ends
        | Section::Causes
        | Section::Trace => false,
    }
}

impl<'a> Report<'a> {
    // Takes the first title.
    fn take_form(&mut self, line: &[u8]) -> bool
        ensures { IsTaken (option_map (in_form self.old) (form_of_title line.now)) result self.new }
    {
        match form_of_title(line) {
            Some(form) => {
                self.section = Section::Conflicts;
                self.form = form;
                true
            }
            None => false,
        }
    }

    fn take_pair(&mut self, line: &'a [u8]) -> Result<bool, AllocError>
        ensures { IfOk result
            (λ taken. IsTaken (option_map (with_pair self.old) (pair_line self.old.form line.now)) taken self.new) }
    {
        match pair_line(self.form, line) {
            Some(pair) => {
                self.pairs.push(pair)?;
                Ok(true)
            }
            None => Ok(false),
        }
    }

    fn take_event(&mut self, line: &'a [u8]) -> Result<bool, AllocError>
        ensures { IfOk result (λ taken. IsTaken (with_event self.old (event_line self.old.form line.now)) taken self.new) }
    {
        match event_line(self.form, line) {
            Some(Some(act)) => {
                if self.acts.len() >= MOST_ACTS {
                    return Ok(false);
                }
                self.acts.push(act)?;
                Ok(true)
            }
            Some(None) => Ok(true),
            None => Ok(false),
        }
    }

    fn take_step(&mut self, line: &'a [u8]) -> Result<bool, AllocError>
        ensures { IfOk result (λ taken. IsTaken (with_new_step self.old (step_line line.now)) taken self.new) }
    {
        match step_line(line) {
            Some(step) => {
                if self.steps.len() >= MOST_STEPS {
                    return Ok(false);
                }
                self.steps.push(step)?;
                Ok(true)
            }
            None => Ok(false),
        }
    }

    fn take_serial(&mut self, line: &'a [u8]) -> Result<bool, AllocError>
        ensures { IfOk result
            (λ taken. IsTaken (option_map (with_serial self.old) (serial_line self.old.form line.now)) taken self.new) }
    {
        match serial_line(self.form, line) {
            Some(act) => {
                self.serial.push(act)?;
                Ok(true)
            }
            None => Ok(false),
        }
    }

    // A line that opens no further section.
    fn take_other(&mut self, line: &'a [u8]) -> Result<bool, AllocError>
        ensures { IfOk result (λ taken. IsTaken (with_line self.old.section self.old line.now) taken self.new) }
    {
        match self.section {
            Section::Opening => Ok(self.take_form(line)),
            Section::Conflicts => self.take_pair(line),
            Section::History | Section::Completion => self.take_event(line),
            Section::Ends => Ok(is_end_line(line)),
            Section::Causes => Ok(is_cause_line(line)),
            Section::Trace => self.take_step(line),
            Section::Serial => self.take_serial(line),
        }
    }

    // Takes a line, if it is what its place wants.
    fn take_line(&mut self, line: &'a [u8]) -> Result<bool, AllocError>
        ensures { IfOk result (λ taken. IsTaken (after_line self.old line.now) taken self.new) }
    {
        if let Some(section) = opened(self.section, line) {
            self.section = section;
            return Ok(true);
        }
        self.take_other(line)
    }

    /// Reads a text: nothing is answered where it is a report, and else the number of the first bad line.
    pub fn read(&mut self, text: &'a [u8]) -> Result<Option<usize>, AllocError>
        ensures { IfOk result (λ bad. IsRead (reading_from self.old 1 (parts 10 text.now)) bad self.new) }
    {
        let mut rest = text;
        let mut number = 1;
        while let Some((line, behind)) = cut(rest, b'\n') {
            if !self.take_line(line)? {
                return Ok(Some(number));
            }
            rest = behind;
            number += 1;
        }
        if may_end(self.section, rest) {
            return Ok(None);
        }
        Ok(Some(number))
    }
}
