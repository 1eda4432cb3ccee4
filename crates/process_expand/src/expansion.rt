// Writing out what follows a choice, from the last word of a text to its first.
ghost use Rattle.std.specs.Prelude.{◌≡◌, ◌++◌, ◌<◌, [], IfErr, IfOk, OnOk, reverse, true};
ghost use Rattle.process_expand.specs.Expansion.{at_end, begin, close, divide, end, expanded, in_front, put, steps_in, IsTooLong};
ghost use Rattle.process_expand.specs.States.{frame_of, state_of};
ghost use Rattle.process_expand.specs.declared.expansion.Unwritten.TheVariants as unwritten;

use crate::tokens::{Role, Token};
use std::alloc::{AllocError, AllocFailed, Global};

const MOST_STEPS: usize = 256;

/// Why a text isn't written out.
#[derive(Clone, Copy, Debug, PartialEq, Eq, Drop)]
pub enum Unwritten {
    /// More than 256 steps are written up to the end of a process.
    TooLong,
    NoMemory,
}

impl From<AllocError> for Unwritten {
    ghost from_gives = { λ _ u. u ≡ unwritten.NoMemory };

    fn from(_: AllocError) -> Self {
        Unwritten::NoMemory
    }
}

// A choice, or a process, of which the end is written: what stands behind each alternative, and what is written. Both stand backwards.
#[derive(Drop)]
struct Open {
    rest: Vec<Token>,
    written: Vec<Token>,
}

// What is written from some word on, backwards; the innermost choice is the last.
#[derive(Drop)]
struct Written {
    text: Vec<Token>,
    open: Vec<Open>,
}

// Adds tokens behind others.
fn add_all(out: &mut Vec<Token>, tokens: &[Token]) -> Result<(), AllocError>
    ensures { OnOk result (out.new.items ≡ out.old.items ++ tokens.now) }
{
    for token in tokens {
        out.push(*token)?;
    }
    Ok(())
}

// How many steps there are.
fn steps_in(tokens: &[Token]) -> usize
    ensures { result ≡ steps_in tokens.now }
{
    let mut count = 0;
    for token in tokens {
        if token.role == Role::Name {
            count += 1;
        }
    }
    count
}

impl Written {
    // Nothing.
    fn new(alloc: Global) -> Self
        ensures { state_of result ≡ at_end }
    {
        Written {
            text: Vec::new(alloc),
            open: Vec::new(alloc),
        }
    }

    // A word where it stands.
    fn put(&mut self, token: Token) -> Result<(), AllocError>
        ensures { OnOk result (state_of self.new ≡ put token (state_of self.old)) }
    {
        self.text.push(token)?;
        Ok(())
    }

    // The end of a choice, behind whose alternatives stands what was written.
    fn close(&mut self, alloc: Global, token: Token) -> Result<(), AllocError>
        ensures { OnOk result (state_of self.new ≡ close token (state_of self.old)) }
    {
        let mut rest = Vec::new(alloc);
        add_all(&mut rest, &self.text)?;
        let mut written = Vec::new(alloc);
        written.push(token)?;
        self.open.push(Open { rest, written })?;
        Ok(())
    }

    // The end of a process, behind which stands what was written.
    fn end(&mut self, alloc: Global, token: Token) -> Result<(), AllocError>
        ensures { OnOk result (state_of self.new ≡ end token (state_of self.old)) }
    {
        let mut written = Vec::new(alloc);
        add_all(&mut written, &self.text)?;
        written.push(token)?;
        self.text = Vec::new(alloc);
        self.open.push(Open {
            rest: Vec::new(alloc),
            written,
        })?;
        Ok(())
    }

    // The beginning of an alternative, and the end of the one in front of it.
    fn divide(&mut self, alloc: Global, token: Token) -> Result<(), AllocError>
        ensures { OnOk result (state_of self.new ≡ divide token (state_of self.old).text (state_of self.old).frames) }
    {
        let Some(open) = self.open.pop() else {
            return self.put(token);
        };
        let Open { rest, mut written } = open;
        add_all(&mut written, &self.text)?;
        written.push(token)?;
        let mut text = Vec::new(alloc);
        add_all(&mut text, &rest)?;
        self.text = text;
        self.open.push(Open { rest, written })?;
        Ok(())
    }

    // The beginning of a choice, or of a process.
    fn begin(&mut self, token: Token) -> Result<(), AllocError>
        ensures { OnOk result (state_of self.new ≡ begin token (state_of self.old).text (state_of self.old).frames) }
    {
        let Some(open) = self.open.pop() else {
            return self.put(token);
        };
        let Open {
            rest: _,
            mut written,
        } = open;
        add_all(&mut written, &self.text)?;
        written.push(token)?;
        self.text = written;
        Ok(())
    }

    // A word in front of what is written.
    fn add_in_front(&mut self, alloc: Global, token: Token) -> Result<(), AllocError>
        ensures { OnOk result (state_of self.new ≡ in_front token.role token (state_of self.old)) }
    {
        match token.role {
            Role::Begins | Role::Opens => self.begin(token),
            Role::Divides => self.divide(alloc, token),
            Role::Closes => self.close(alloc, token),
            Role::Ends => self.end(alloc, token),
            Role::Follows => Ok(()),
            Role::Kind | Role::Name | Role::Other => self.put(token),
        }
    }

    // Whether more steps than a process has are written up to the end of the alternative that the word in front is in.
    #[tactic(auto, using(crate::proofs::Backwards::steps_reversed))]
    fn is_too_long(&self, role: Role) -> bool
        ensures { result ≡ true → 256 < steps_in (state_of self.now).text }
    {
        matches!(
            role,
            Role::Begins | Role::Opens | Role::Divides | Role::Closes
        ) && steps_in(&self.text) > MOST_STEPS
    }
}

/// What is written in place of a text.
pub fn expanded(alloc: Global, tokens: &[Token]) -> Result<Vec<Token>, Unwritten>
    ensures text { IfOk result (λ text. text.items ≡ expanded tokens.now) }
    ensures too_long { IfErr result (λ u. u ≡ Unwritten.TooLong → IsTooLong tokens.now) }
{
    let mut written = Written::new(alloc);
    let mut left = tokens.len();
    while left > 0 {
        left -= 1;
        let token = tokens[left];
        if written.is_too_long(token.role) {
            return Err(Unwritten::TooLong);
        }
        written.add_in_front(alloc, token)?;
    }
    let Written { mut text, open: _ } = written;
    text.reverse();
    Ok(text)
}
