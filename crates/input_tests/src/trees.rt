// What no clause of `process_tree` says: rows made by hand, the limits, and a block that is nested very deep.
use crate::words::must;
use process_tree::{
    Block, Name, Outcome, Place, Played, Step, StepKind, Steps, Tail, Tree, TreeError,
};
use std::alloc::Global;
use std::process::Abort;

fn step(rt: &impl Abort, alloc: Global, kind: StepKind, number: usize) -> Step {
    let name = must(rt, format!(in alloc; "s{number}"));
    Step {
        kind,
        name: must(rt, Name::new(alloc, name.as_bytes())),
        op: must(rt, Name::new(alloc, b"op")),
        key: 0,
        amount: 0,
        tries: 3,
        undo_tries: 3,
        refuse: 0,
        undo_refuse: 0,
    }
}

/// Steps of these kinds, named by numbers from the first on.
fn steps(rt: &impl Abort, alloc: Global, kinds: &[StepKind], first: usize) -> Steps {
    let mut steps = Vec::new(alloc);
    let mut number = first;
    for kind in kinds {
        must(rt, steps.push(step(rt, alloc, *kind, number)));
        number = number.wrapping_add(1);
    }
    Steps::new(steps)
}

fn flat(rt: &impl Abort, alloc: Global, kinds: &[StepKind], first: usize) -> Block {
    let steps = steps(rt, alloc, kinds, first);
    Block {
        steps,
        tail: Tail::End,
    }
}

/// A choice between these blocks.
fn choice(alloc: Global, ways: Vec<Block>) -> Block {
    Block {
        steps: Steps::new(Vec::new(alloc)),
        tail: Tail::Choice(ways),
    }
}

/// A choice between as many single steps.
fn wide(rt: &impl Abort, alloc: Global, alternatives: usize) -> Block {
    let mut ways = Vec::new(alloc);
    for number in 0..alternatives {
        must(rt, ways.push(flat(rt, alloc, &[StepKind::C], number)));
    }
    choice(alloc, ways)
}

/// A choice within a choice, as often as that, each with a second alternative.
fn nested(rt: &impl Abort, alloc: Global, depth: usize) -> Block {
    let mut block = flat(rt, alloc, &[StepKind::C], depth);
    for number in 0..depth {
        let mut ways = Vec::new(alloc);
        must(rt, ways.push(block));
        must(rt, ways.push(flat(rt, alloc, &[StepKind::C], number)));
        block = choice(alloc, ways);
    }
    block
}

/// The same without the second alternatives, so with one step in all.
fn chain(rt: &impl Abort, alloc: Global, depth: usize) -> Block {
    let mut block = flat(rt, alloc, &[StepKind::C], 0);
    for _ in 0..depth {
        let mut ways = Vec::new(alloc);
        must(rt, ways.push(block));
        block = choice(alloc, ways);
    }
    block
}

/// Steps of these kinds, and then a choice between steps of those.
fn forked(rt: &impl Abort, alloc: Global, own: &[StepKind], ways: &[&[StepKind]]) -> Block {
    let mut blocks = Vec::new(alloc);
    let mut number = own.len();
    for way in ways {
        must(rt, blocks.push(flat(rt, alloc, way, number)));
        number = number.wrapping_add(way.len());
    }
    let steps = steps(rt, alloc, own, 0);
    Block {
        steps,
        tail: Tail::Choice(blocks),
    }
}

fn refusal(alloc: Global, root: Block) -> Option<TreeError> {
    Tree::build(alloc, root).err()
}

/// A block that is built by rule from a number.
#[derive(Clone, Copy, Drop)]
enum Shape {
    Flat,
    Wide,
    Nested,
    Chain,
}

fn built(rt: &impl Abort, alloc: Global, shape: Shape, number: usize) -> Block {
    match shape {
        Shape::Flat => {
            let kinds = must(rt, vec![in alloc; StepKind::C; number]);
            flat(rt, alloc, &kinds, 0)
        }
        Shape::Wide => wide(rt, alloc, number),
        Shape::Nested => nested(rt, alloc, number),
        Shape::Chain => chain(rt, alloc, number),
    }
}

// A block has 1 to 256 steps; choices are nested up to 16 deep; a choice has 2 to 8 alternatives.
const LIMITS: [(Shape, usize, Option<TreeError>); 10] = [
    (Shape::Flat, 0, Some(TreeError::Empty)),
    (Shape::Flat, 256, None),
    (Shape::Flat, 257, Some(TreeError::Steps(257))),
    (Shape::Nested, 16, None),
    (Shape::Nested, 17, Some(TreeError::Nesting(17))),
    (Shape::Chain, 4000, Some(TreeError::Nesting(4000))),
    (Shape::Wide, 1, Some(TreeError::Alternatives(1))),
    (Shape::Wide, 2, None),
    (Shape::Wide, 8, None),
    (Shape::Wide, 9, Some(TreeError::Alternatives(9))),
];

#[test]
fn a_tree_is_within_its_limits_and_a_refusal_reads_as_text(rt: HostRuntime) {
    let alloc = rt.alloc();
    for (row, (shape, number, want)) in LIMITS.iter().enumerate() {
        let root = built(&rt, alloc, *shape, *number);
        assert_eq!(rt; refusal(alloc, root), *want, "row {row}");
    }
    let text = must(&rt, format!(in alloc; "{}", TreeError::Nesting(17)));
    assert_eq!(rt; text.as_str(), "there are 17 choices open at once");
}

struct Play {
    own: &'static [StepKind],
    ways: &'static [&'static [StepKind]],
    outcomes: &'static [Outcome],
    // the whole path that was done, or the step at which it is stuck
    end: Result<&'static [u16], u16>,
}

use Outcome::{Done, Refused};
use StepKind::{C, P, R};

const PLAYS: [Play; 6] = [
    // A late compensatable step leaves the process stuck.
    Play {
        own: &[P, C],
        ways: &[],
        outcomes: &[Done, Refused],
        end: Err(1),
    },
    // A process with three ways goes through each.
    Play {
        own: &[P],
        ways: &[&[C, C], &[C], &[R]],
        outcomes: &[Done, Done, Done],
        end: Ok(&[0, 1, 2]),
    },
    Play {
        own: &[P],
        ways: &[&[C, C], &[C], &[R]],
        outcomes: &[Done, Done, Refused, Done],
        end: Ok(&[0, 3]),
    },
    Play {
        own: &[P],
        ways: &[&[C, C], &[C], &[R]],
        outcomes: &[Done, Refused, Refused],
        end: Ok(&[0, 4]),
    },
    // An order is shipped or posted.
    Play {
        own: &[C, P],
        ways: &[&[C, P, R], &[R, R]],
        outcomes: &[Done, Done, Done, Done],
        end: Ok(&[0, 1, 2, 3, 4]),
    },
    Play {
        own: &[C, P],
        ways: &[&[C, P, R], &[R, R]],
        outcomes: &[Done, Done, Done, Refused],
        end: Ok(&[0, 1, 5, 6]),
    },
];

fn ends_so(rt: &impl Abort, alloc: Global, play: &Play) -> bool {
    let root = if play.ways.is_empty() {
        flat(rt, alloc, play.own, 0)
    } else {
        forked(rt, alloc, play.own, play.ways)
    };
    let tree = must(rt, Tree::build(alloc, root));
    let played = must(rt, tree.play(alloc, play.outcomes));
    is_end(&played, &play.end)
}

fn is_end(played: &Played, end: &Result<&[u16], u16>) -> bool {
    match (played, end) {
        (Played::Path(places), Ok(path)) => places.as_slice() == *path,
        (Played::Stuck(step), Err(at)) => step == at,
        _ => false,
    }
}

#[test]
fn each_play_ends_as_it_should(rt: HostRuntime) {
    for (row, play) in PLAYS.iter().enumerate() {
        assert!(rt; ends_so(&rt, rt.alloc(), play), "play {row}");
    }
}

#[test]
fn places_follow_the_first_and_the_last_alternatives(rt: HostRuntime) {
    let alloc = rt.alloc();
    let tree = must(
        &rt,
        Tree::build(alloc, forked(&rt, alloc, &[P], &[&[C, C], &[C], &[R]])),
    );
    assert!(rt; tree.count() == 5);
    assert_eq!(rt; tree.first(), Place::Step(0));
    assert_eq!(rt; tree.after(0), Place::Step(1));
    assert_eq!(rt; tree.last_after(0), Place::Step(4));
    assert_eq!(rt; tree.step(4).kind, R);
    assert_eq!(rt;
        must(&rt, tree.completion(alloc, 0)).as_slice(),
        [4].as_slice()
    );
}
