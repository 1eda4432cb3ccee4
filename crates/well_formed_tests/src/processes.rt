// Processes written in one line.
use process_tree::{Block, Name, Step, StepKind, Steps, Tail, Tree};
use std::alloc::Global;

/// A block whose steps and choice aren't closed yet, and the alternatives of the choice that is open in it.
#[derive(Drop)]
struct Open {
    steps: Vec<Step>,
    alternatives: Vec<Block>,
}

/// A step of this kind. Its name has its number.
fn step(alloc: Global, kind: StepKind, number: usize) -> Result<Step, anyhow::Error> {
    let name = format!(in alloc; "s{number}")?;
    Ok(Step {
        kind,
        name: Name::new(alloc, name.as_bytes())?,
        op: Name::new(alloc, b"pay")?,
        key: 1,
        amount: 1,
        tries: 3,
        undo_tries: 3,
        refuse: 0,
        undo_refuse: 0,
    })
}

/// The kind that a letter stands for: `b` is both compensatable and retriable.
fn kind(letter: u8) -> Option<StepKind> {
    match letter {
        b'c' => Some(StepKind::C),
        b'p' => Some(StepKind::P),
        b'r' => Some(StepKind::R),
        b'b' => Some(StepKind::Cr),
        _ => None,
    }
}

/// The process of a line in which a letter is a step of that kind, and brackets are a choice.
pub fn process(alloc: Global, text: &str) -> Result<Tree, anyhow::Error> {
    let mut open: Vec<Open> = Vec::new(alloc);
    let mut steps = Vec::new(alloc);
    let mut tail = Tail::End;
    for (number, letter) in text.as_bytes().iter().enumerate() {
        if let Some(kind) = kind(*letter) {
            steps.push(step(alloc, kind, number)?)?;
        } else if *letter == b'(' {
            open.push(Open {
                steps,
                alternatives: Vec::new(alloc),
            })?;
            steps = Vec::new(alloc);
        } else if let Some(mut outer) = open.pop() {
            outer.alternatives.push(Block {
                steps: Steps::new(steps),
                tail,
            })?;
            if *letter == b')' {
                steps = outer.steps;
                tail = Tail::Choice(outer.alternatives);
            } else {
                open.push(outer)?;
                steps = Vec::new(alloc);
                tail = Tail::End;
            }
        }
    }
    let root = Block {
        steps: Steps::new(steps),
        tail,
    };
    Ok(Tree::build(alloc, root)?)
}
