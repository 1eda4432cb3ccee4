// Trees: blocks within the limits.
ghost use Rattle.std.specs.Prelude.{◌≡◌, ◌++◌, ◌∷◌, [], ◌⊎◌, ◌<◌, length, Some, None, IfOk, IfErr, OnOk, slice_get};
ghost use Rattle.process_tree.specs.Blocks.{outline};
ghost use Rattle.process_tree.specs.Making.{tree_fault, text_of};
ghost use Rattle.process_tree.specs.Shape.{shape_of, branch_to, last_commit, last_after};
ghost use Rattle.process_tree.specs.Play.{fallback_place};
ghost use Rattle.process_tree.specs.Recovery.{place_of, first_place, place_after, last_place_after};
ghost use Rattle.process_tree.specs.declared.tree.TreeError.TheVariants.{NoMemory};

use crate::building::steps_within;
use crate::paths::paths_of;
use crate::walk::step_at;
use crate::ways::{branch_to, greatest_behind, kept_len, least_behind, least_way};
use crate::{Block, Fallback, Name, Place, Places, Step};
use std::alloc::{AllocError, Global};
use std::error::Error;
use std::fmt;
use std::marker::Model;

/// A block that is within all limits, as the root of a process.
#[derive(Drop)]
pub struct Tree {
    root: Block,
    /// The whole paths, in text order.
    paths: Vec<Places>,
    count: u16,
}

impl Model for Tree {
    ghost use Rattle.process_tree.specs.declared.block.Block.{Block};

    ghost Value = { Block };

    ghost use Rattle.process_tree.specs.contracts.block.Block as e;
    ghost use Rattle.std.specs.Coded.{codes};

    ghost coded = { Prim.hlevel (codes, e.the_row.coded) };

    ghost view = { λ t. t.root };

    ghost use Rattle.std.specs.Prelude.{◌≡◌, None, length};
    ghost use Rattle.process_tree.specs.Blocks.{outline};
    ghost use Rattle.process_tree.specs.Making.{tree_fault};

    ghost invariant = { λ t.
        (tree_fault t.root ≡ None)
        × (t.count ≡ length (outline t.root).steps)
        × (t.paths.items ≡ (outline t.root).paths) };
}

/// A process.
#[derive(Drop)]
pub struct Named {
    pub name: Name,
    pub tree: Tree,
}

/// Why a block made no tree, in the order in which it is tested, each over the whole block.
#[derive(Clone, Copy, Debug, PartialEq, Eq)]
pub enum TreeError {
    /// A block has neither a step nor a choice.
    Empty,
    /// There are this many steps, which is more than 256.
    Steps(u32),
    /// This many choices are open at once, which is more than 16.
    Nesting(u32),
    /// The first choice in text order that has fewer than 2 or more than 8 alternatives has this many.
    Alternatives(u32),
    /// This step is the first that has the name of an earlier one.
    SameName(u16),
    /// This step is the first with a field out of its limits, or with one that its kind lacks and that doesn't hold its
    /// default.
    Number(u16),
    NoMemory,
}

impl fmt::Display for TreeError {
    ghost output = { λ e. Some (text_of e) };

    fn fmt<W: fmt::Write>(&self, f: &mut fmt::Formatter<W>) -> fmt::Result {
        match *self {
            TreeError::Empty => f.write_str("a block is empty"),
            TreeError::Steps(n) => write!(f, "there are {n} steps"),
            TreeError::Nesting(n) => write!(f, "there are {n} choices open at once"),
            TreeError::Alternatives(n) => write!(f, "a choice has {n} alternatives"),
            TreeError::SameName(n) => write!(f, "step {n} has the name of an earlier one"),
            TreeError::Number(n) => write!(f, "step {n} is out of its limits"),
            TreeError::NoMemory => f.write_str("out of memory"),
        }
    }
}

impl Error for TreeError {}

impl From<AllocError> for TreeError {
    ghost from_gives = { λ _ e. e ≡ NoMemory };

    fn from(_: AllocError) -> Self {
        TreeError::NoMemory
    }
}

/// The place of a step, or the end.
fn place_of(step: Option<u16>) -> Place
    ensures { result ≡ place_of step }
{
    match step {
        None => Place::End,
        Some(step) => Place::Step(step),
    }
}

impl Tree {
    /// The tree of this block, or what is refused of it first, in the order of `TreeError`.
    pub fn build(alloc: Global, root: Block) -> Result<Tree, TreeError>
        ensures tree { IfOk result (λ tree. tree ≡ root) }
        ensures good { OnOk result (tree_fault root ≡ None) }
        ensures fault { IfErr result (λ e. (e ≡ TreeError.NoMemory) ⊎ (tree_fault root ≡ Some e)) }
    {
        let count = steps_within(alloc, &root)?;
        let paths = paths_of(alloc, &root)?;
        Ok(Tree { root, paths, count })
    }

    /// The block that the tree was built of.
    pub fn root(&self) -> &Block
        ensures root { result.now ≡ self.now }
        ensures good { tree_fault self.now ≡ None }
    {
        &self.root
    }

    /// How many steps it has.
    pub fn count(&self) -> u16
        ensures count { result ≡ length (outline self.now).steps }
        ensures good { tree_fault self.now ≡ None }
    {
        self.count
    }

    /// The whole paths, in text order.
    pub fn paths(&self) -> &[Places]
        ensures paths { result.now ≡ (outline self.now).paths }
        ensures good { tree_fault self.now ≡ None }
    {
        &self.paths
    }

    /// A step by its number.
    pub fn step(&self, n: u16) -> &Step
        requires { n < length (outline self.now).steps }
        ensures { slice_get (outline self.now).steps n ≡ Some result.now }
    {
        match step_at(&self.root, usize::from(n)) {
            Ok(step) => step,
            Err(_) => unreachable!(),
        }
    }

    /// The place where the process begins.
    pub fn first(&self) -> Place
        ensures place { result ≡ first_place (shape_of self.now) }
        ensures good { tree_fault self.now ≡ None }
    {
        place_of(least_behind(&self.paths, None))
    }

    /// The place after a step, through first alternatives.
    pub fn after(&self, n: u16) -> Place
        requires { n < length (outline self.now).steps }
        ensures place { result ≡ place_after (shape_of self.now) n }
        ensures good { tree_fault self.now ≡ None }
    {
        place_of(least_behind(&self.paths, Some(n)))
    }

    /// The place after a step, through last alternatives.
    pub fn last_after(&self, n: u16) -> Place
        requires { n < length (outline self.now).steps }
        ensures place { result ≡ last_place_after (shape_of self.now) n }
        ensures good { tree_fault self.now ≡ None }
    {
        place_of(greatest_behind(&self.paths, Some(n)))
    }

    /// Where a refused step falls back to, all steps before it on the branch being done. Of these, `commit` is the last
    /// commit point.
    pub fn fallback(&self, n: u16, commit: Option<u16>) -> Fallback
        requires step { n < length (outline self.now).steps }
        requires commit { commit ≡ last_commit (shape_of self.now) (branch_to (shape_of self.now) n) }
        ensures { result ≡ fallback_place (shape_of self.now) n }
    {
        let branch = branch_to(&self.paths, n);
        let kept = kept_len(branch, commit);
        match least_way(&self.paths, kept, branch, n) {
            Some(to) => {
                let keep = branch_to(&self.paths, to).len() as u16;
                Fallback::Alternative { keep, to }
            }
            None => match commit {
                None => Fallback::All,
                Some(_) => Fallback::Stuck,
            },
        }
    }

    /// The places after a step, through last alternatives.
    pub fn completion(&self, alloc: Global, n: u16) -> Result<Places, AllocError>
        requires { n < length (outline self.now).steps }
        ensures { IfOk result (λ places. places ≡ last_after (shape_of self.now) (branch_to (shape_of self.now) n ++ n ∷ [])) }
    {
        let mut places = Vec::new(alloc);
        let mut place = self.last_after(n);
        while let Place::Step(step) = place {
            places.push(step)?;
            place = self.last_after(step);
        }
        Ok(Places::new(places))
    }
}
