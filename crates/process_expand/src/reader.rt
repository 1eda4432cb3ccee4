// Reading a text word by word.
ghost use Rattle.std.specs.Prelude.{◌≡◌, ◌⊎◌, ◌∷◌, ◌++◌, [], ℕ, List, drop, reverse, slice_get, true, false, option_map, MatchOption, IfErr, IfOk, OnOk};
ghost use Rattle.text_words.specs.Marks.{meaning, settings};
ghost use Rattle.process_text.specs.FirstFault.{Before, begun_in, end_at, goes_on, nothing, turn_behind, turn_of};
ghost use Rattle.process_text.specs.FirstFault.{at_amount, at_key, at_number, at_operation, at_process_name, at_settings, at_step_name};
ghost use Rattle.process_text.specs.FirstFault.{between_processes, in_block};
ghost use Rattle.process_text.specs.declared.fault.Fault.TheVariants as text_faults;
ghost use Rattle.process_expand.specs.Reading.{role_at, role_behind, role_of, turn_at};
ghost use Rattle.process_expand.specs.Reader.{before_of, place_of, IsStop};

use crate::naming::is_given;
use crate::places::Fault;
use crate::tokens::Role;
use process_text::{Expected, What};
use process_tree::{MOST_NESTING, MOST_STEPS, Name, StepKind, is_name};
use std::alloc::Global;
use text_words::{
    At, Mark, Next, Setting, amount, expected_at, is_word, key, meaning, setting_number,
};

const MOST_PROCESSES: usize = 256;

const MOST_BEGUN: usize = 8;

/// The place of the next word.
#[derive(Clone, Copy, Debug, PartialEq, Eq)]
pub enum Place {
    BetweenProcesses,
    ProcessName,
    Block(At),
    StepName(StepKind),
    Operation(StepKind),
    Key(StepKind),
    Amount(StepKind),
    /// Behind a step of this kind, where its options from this one on may still come.
    Settings(StepKind, usize),
    /// Behind the word of an option.
    Number(Setting, StepKind, usize),
}

/// What was read of a text.
#[derive(Drop)]
pub struct Reader {
    place: Place,
    // The names of the processes, and of the steps of this one.
    earlier: Vec<Vec<u8>>,
    names: Vec<Vec<u8>>,
    choices: Vec<usize>,
}

// The fault that a name is taken.
fn same_name(alloc: Global, word: &[u8]) -> Fault
    ensures { (result ≡ Fault.NoMemory) ⊎ (result ≡ Fault.SameName word.now) }
{
    match Name::new(alloc, word) {
        Ok(name) => Fault::SameName(name),
        Err(_) => Fault::NoMemory,
    }
}

// An option of a kind by number.
fn setting_at(kind: StepKind, n: usize) -> Option<Setting>
    ensures { result ≡ slice_get (settings kind) n }
{
    match (kind, n) {
        (StepKind::C, 0) | (StepKind::Cr, 1) => Some(Setting::Undo),
        (StepKind::C, 1) | (StepKind::P, 0) | (StepKind::R, 1) | (StepKind::Cr, 2) => {
            Some(Setting::Refuse)
        }
        (StepKind::C, 2) | (StepKind::Cr, 3) => Some(Setting::UndoRefuse),
        (StepKind::R, 0) | (StepKind::Cr, 0) => Some(Setting::Tries),
        _ => None,
    }
}

// The option that a word names, of those of a kind from the n-th on, and the number of the one behind it.
#[tactic(auto, using(crate::proofs::Steps::option_here, crate::proofs::Steps::option_later, crate::proofs::Steps::role_here, crate::proofs::Steps::role_later))]
fn setting_named(kind: StepKind, from: usize, word: &[u8]) -> Option<(Setting, usize)>
    ensures turn { MatchOption result
        ((b : Before) → turn_behind b (drop from (settings kind)) word.now ≡ turn_behind b [] word.now)
        (λ r. (b : Before) → turn_behind b (drop from (settings kind)) word.now ≡ goes_on b (at_number r.0 (drop r.1 (settings kind)))) }
    ensures role { MatchOption result
        ((begun : ℕ) → role_behind (drop from (settings kind)) begun word.now ≡ role_behind [] begun word.now)
        (λ r. (begun : ℕ) → role_behind (drop from (settings kind)) begun word.now ≡ Role.Other) }
{
    let mut n = from;
    while let Some(setting) = setting_at(kind, n) {
        n += 1;
        if is_word(word, setting.word()) {
            return Some((setting, n));
        }
    }
    None
}

// What is expected where a text ends.
fn expected_in(place: Place) -> Option<Expected>
    ensures { option_map (λ e. text_faults.Missing e) result ≡ end_at (place_of place) }
{
    match place {
        Place::BetweenProcesses => None,
        Place::ProcessName | Place::StepName(_) => Some(Expected::Name),
        Place::Block(at) => Some(expected_at(at)),
        Place::Operation(_) => Some(Expected::Operation),
        Place::Key(_) => Some(Expected::Key),
        Place::Amount(_) => Some(Expected::Amount),
        Place::Settings(_, _) => Some(Expected::Next),
        Place::Number(_, _, _) => Some(Expected::Number),
    }
}

impl Reader {
    /// In front of a text.
    pub fn new(alloc: Global) -> Self
        ensures before { before_of result ≡ nothing }
        ensures place { place_of result.place ≡ between_processes }
    {
        Reader {
            place: Place::BetweenProcesses,
            earlier: Vec::new(alloc),
            names: Vec::new(alloc),
            choices: Vec::new(alloc),
        }
    }

    // How many alternatives are begun in the innermost choice.
    fn begun(&self) -> usize
        ensures { result ≡ begun_in (before_of self.now).choices }
    {
        match self.choices.last() {
            Some(begun) => *begun,
            None => 0,
        }
    }

    // A process begins.
    fn read_process(&mut self, word: &[u8]) -> Result<Role, Fault>
        ensures turn { OnOk result (turn_at (before_of self.old) between_processes word.now
            ≡ goes_on (before_of self.new) (place_of self.new.place)) }
        ensures role { IfOk result (λ r. r ≡ role_at (before_of self.old) between_processes word.now) }
        ensures fault { IfErr result (IsStop (turn_at (before_of self.old) between_processes word.now)) }
    {
        if !is_word(word, b"process") {
            return Err(Fault::Misfit(Expected::Process));
        }
        if self.earlier.len() >= MOST_PROCESSES {
            return Err(Fault::Limit(What::Processes));
        }
        self.place = Place::ProcessName;
        Ok(Role::Begins)
    }

    // The name of a process.
    fn read_process_name(&mut self, alloc: Global, word: &[u8]) -> Result<Role, Fault>
        ensures turn { OnOk result (turn_at (before_of self.old) at_process_name word.now
            ≡ goes_on (before_of self.new) (place_of self.new.place)) }
        ensures role { IfOk result (λ r. r ≡ Role.Other) }
        ensures fault { IfErr result (IsStop (turn_at (before_of self.old) at_process_name word.now)) }
    {
        if !is_name(word) {
            return Err(Fault::Misfit(Expected::Name));
        }
        if is_given(&self.earlier, word) {
            return Err(same_name(alloc, word));
        }
        self.earlier.push(word.to_vec(alloc)?)?;
        self.names = Vec::new(alloc);
        self.choices = Vec::new(alloc);
        self.place = Place::Block(At::Begin);
        Ok(Role::Other)
    }

    // The name of a step.
    fn read_step_name(&mut self, alloc: Global, kind: StepKind, word: &[u8]) -> Result<Role, Fault>
        ensures turn { OnOk result (turn_at (before_of self.old) (at_step_name kind) word.now
            ≡ goes_on (before_of self.new) (place_of self.new.place)) }
        ensures role { IfOk result (λ r. r ≡ Role.Name) }
        ensures fault { IfErr result (IsStop (turn_at (before_of self.old) (at_step_name kind) word.now)) }
    {
        if !is_name(word) {
            return Err(Fault::Misfit(Expected::Name));
        }
        if is_given(&self.names, word) {
            return Err(same_name(alloc, word));
        }
        self.names.push(word.to_vec(alloc)?)?;
        self.place = Place::Operation(kind);
        Ok(Role::Name)
    }

    // A choice opens.
    fn read_choose(&mut self) -> Result<Role, Fault>
        ensures turn { OnOk result (turn_of (before_of self.old) (Next.Mark Mark.Choose)
            ≡ goes_on (before_of self.new) (place_of self.new.place)) }
        ensures role { IfOk result (λ r. r ≡ Role.Opens) }
        ensures fault { IfErr result (IsStop (turn_of (before_of self.old) (Next.Mark Mark.Choose))) }
    {
        if self.choices.len() >= MOST_NESTING {
            return Err(Fault::Limit(What::Nesting));
        }
        self.choices.push(1)?;
        self.place = Place::Block(At::Begin);
        Ok(Role::Opens)
    }

    // Another alternative begins.
    fn read_or(&mut self) -> Result<Role, Fault>
        ensures turn { OnOk result (turn_of (before_of self.old) (Next.Mark Mark.Or)
            ≡ goes_on (before_of self.new) (place_of self.new.place)) }
        ensures role { IfOk result (λ r. r ≡ Role.Divides) }
        ensures fault { IfErr result (IsStop (turn_of (before_of self.old) (Next.Mark Mark.Or))) }
    {
        let begun = self.begun();
        if begun >= MOST_BEGUN {
            return Err(Fault::Limit(What::Alternatives));
        }
        let _ = self.choices.pop();
        self.choices.push(begun + 1)?;
        self.place = Place::Block(At::Begin);
        Ok(Role::Divides)
    }

    // A choice closes.
    fn read_done(&mut self) -> Result<Role, Fault>
        ensures turn { OnOk result (turn_of (before_of self.old) (Next.Mark Mark.Done)
            ≡ goes_on (before_of self.new) (place_of self.new.place)) }
        ensures role { IfOk result (λ r. r ≡ Role.Closes) }
        ensures fault { IfErr result (IsStop (turn_of (before_of self.old) (Next.Mark Mark.Done))) }
    {
        if self.begun() < 2 {
            return Err(Fault::Misfit(Expected::Or));
        }
        let _ = self.choices.pop();
        self.place = Place::Block(At::BehindChoice);
        Ok(Role::Closes)
    }

    // A process ends.
    fn read_end(&mut self, alloc: Global) -> Role
        ensures turn { turn_of (before_of self.old) (Next.Mark Mark.End) ≡ goes_on (before_of self.new) (place_of self.new.place) }
        ensures role { result ≡ Role.Ends }
    {
        self.names = Vec::new(alloc);
        self.choices = Vec::new(alloc);
        self.place = Place::BetweenProcesses;
        Role::Ends
    }

    // A step begins.
    fn read_kind(&mut self, kind: StepKind) -> Result<Role, Fault>
        ensures turn { OnOk result (turn_of (before_of self.old) (Next.Step kind)
            ≡ goes_on (before_of self.new) (place_of self.new.place)) }
        ensures role { IfOk result (λ r. r ≡ Role.Kind) }
        ensures fault { IfErr result (IsStop (turn_of (before_of self.old) (Next.Step kind))) }
    {
        if self.names.len() >= MOST_STEPS {
            return Err(Fault::Limit(What::Steps));
        }
        self.place = Place::StepName(kind);
        Ok(Role::Kind)
    }

    // What a word in a block does.
    fn read_next(&mut self, alloc: Global, next: Next) -> Result<Role, Fault>
        ensures turn { OnOk result (turn_of (before_of self.old) next ≡ goes_on (before_of self.new) (place_of self.new.place)) }
        ensures role { IfOk result (λ r. r ≡ role_of next) }
        ensures fault { IfErr result (IsStop (turn_of (before_of self.old) next)) }
    {
        match next {
            Next::Step(kind) => self.read_kind(kind),
            Next::Mark(Mark::Choose) => self.read_choose(),
            Next::Mark(Mark::Or) => self.read_or(),
            Next::Mark(Mark::Done) => self.read_done(),
            Next::Mark(Mark::End) => Ok(self.read_end(alloc)),
            Next::Misfit(expected) => Err(Fault::Misfit(expected)),
        }
    }

    // A word in a block.
    fn read_in_block(&mut self, alloc: Global, at: At, word: &[u8]) -> Result<Role, Fault>
        ensures turn { OnOk result (turn_at (before_of self.old) (in_block at) word.now
            ≡ goes_on (before_of self.new) (place_of self.new.place)) }
        ensures role { IfOk result (λ r. r ≡ role_at (before_of self.old) (in_block at) word.now) }
        ensures fault { IfErr result (IsStop (turn_at (before_of self.old) (in_block at) word.now)) }
    {
        let next = meaning(at, self.begun(), word);
        match at {
            At::BehindChoice if is_word(word, b"then") => {
                self.place = Place::Block(At::Begin);
                Ok(Role::Follows)
            }
            At::BehindChoice | At::Begin | At::BehindStep => self.read_next(alloc, next),
        }
    }

    // A word behind a step, where options may still come.
    fn read_setting(
        &mut self,
        alloc: Global,
        kind: StepKind,
        from: usize,
        word: &[u8],
    ) -> Result<Role, Fault>
        ensures turn { OnOk result (turn_at (before_of self.old) (at_settings (drop from (settings kind))) word.now
            ≡ goes_on (before_of self.new) (place_of self.new.place)) }
        ensures role { IfOk result
            (λ r. r ≡ role_at (before_of self.old) (at_settings (drop from (settings kind))) word.now) }
        ensures fault { IfErr result
            (IsStop (turn_at (before_of self.old) (at_settings (drop from (settings kind))) word.now)) }
    {
        match setting_named(kind, from, word) {
            Some((setting, behind)) => {
                self.place = Place::Number(setting, kind, behind);
                Ok(Role::Other)
            }
            None => {
                let next = meaning(At::BehindStep, self.begun(), word);
                self.read_next(alloc, next)
            }
        }
    }

    // A word that has to pass a test, and what may stand behind it.
    fn read_tested(
        &mut self,
        passes: bool,
        expected: Expected,
        behind: Place,
    ) -> Result<Role, Fault>
        ensures passed { OnOk result (passes ≡ true) }
        ensures before { before_of self.new ≡ before_of self.old }
        ensures place { OnOk result (self.new.place ≡ behind) }
        ensures role { IfOk result (λ r. r ≡ Role.Other) }
        ensures fault { IfErr result (λ f. (passes ≡ false) × (f ≡ Fault.Misfit expected)) }
    {
        if !passes {
            return Err(Fault::Misfit(expected));
        }
        self.place = behind;
        Ok(Role::Other)
    }

    /// Reads the next word. What it is.
    pub fn read(&mut self, alloc: Global, word: &[u8]) -> Result<Role, Fault>
        ensures turn { OnOk result (turn_at (before_of self.old) (place_of self.old.place) word.now
            ≡ goes_on (before_of self.new) (place_of self.new.place)) }
        ensures role { IfOk result (λ r. r ≡ role_at (before_of self.old) (place_of self.old.place) word.now) }
        ensures fault { IfErr result (IsStop (turn_at (before_of self.old) (place_of self.old.place) word.now)) }
    {
        match self.place {
            Place::BetweenProcesses => self.read_process(word),
            Place::ProcessName => self.read_process_name(alloc, word),
            Place::Block(at) => self.read_in_block(alloc, at, word),
            Place::StepName(kind) => self.read_step_name(alloc, kind, word),
            Place::Operation(kind) => {
                self.read_tested(is_name(word), Expected::Operation, Place::Key(kind))
            }
            Place::Key(kind) => {
                self.read_tested(key(word).is_some(), Expected::Key, Place::Amount(kind))
            }
            Place::Amount(kind) => self.read_tested(
                amount(word).is_some(),
                Expected::Amount,
                Place::Settings(kind, 0),
            ),
            Place::Settings(kind, from) => self.read_setting(alloc, kind, from, word),
            Place::Number(setting, kind, behind) => self.read_tested(
                setting_number(setting, word).is_some(),
                Expected::Number,
                Place::Settings(kind, behind),
            ),
        }
    }

    /// What is expected where the text ends here, if something is.
    pub fn expected(&self) -> Option<Expected>
        ensures { option_map (λ e. text_faults.Missing e) result ≡ end_at (place_of self.now.place) }
    {
        expected_in(self.place)
    }
}
