// How large a block is.
ghost use Rattle.std.specs.Prelude.{◌≡◌, min};
ghost use Rattle.process_tree.specs.Blocks.{outline};
ghost use Rattle.process_tree.specs.Measures.{measure_of, joined, odd_number};

use crate::{Block, LEAST_ALTERNATIVES, MOST_ALTERNATIVES, Tail};

/// What the making of a tree asks of a block. A number that is too large for its type is the type's last.
#[derive(Clone, Copy, Debug, PartialEq, Eq)]
pub struct Measure {
    pub has_empty: bool,
    pub steps: u32,
    pub nesting: u32,
    pub odd_choice: Option<u32>,
}

/// The number, or the last of its type.
pub fn clipped(number: usize) -> u32
    ensures { result ≡ min number 4294967295 }
{
    u32::try_from(number).unwrap_or(u32::MAX)
}

/// The number of alternatives, where it is not 2 to 8.
fn odd_number(alternatives: usize) -> Option<u32>
    ensures { result ≡ odd_number alternatives }
{
    if alternatives < LEAST_ALTERNATIVES || MOST_ALTERNATIVES < alternatives {
        Some(clipped(alternatives))
    } else {
        None
    }
}

/// One after the other.
fn joined(all: Measure, next: Measure) -> Measure
    ensures { result ≡ joined all next }
{
    Measure {
        has_empty: all.has_empty || next.has_empty,
        steps: all.steps.saturating_add(next.steps),
        nesting: all.nesting.max(next.nesting),
        odd_choice: all.odd_choice.or(next.odd_choice),
    }
}

/// How large a block is.
pub fn measured(block: &Block) -> Measure
    ensures { result ≡ measure_of (outline block.now) }
{
    let own = clipped(block.steps.as_slice().len());
    match &block.tail {
        Tail::End => Measure {
            has_empty: own == 0,
            steps: own,
            nesting: 0,
            odd_choice: None,
        },
        Tail::Choice(blocks) => {
            let mut all = Measure {
                has_empty: false,
                steps: own,
                nesting: 0,
                odd_choice: odd_number(blocks.len()),
            };
            for inner in blocks {
                all = joined(all, measured(inner));
            }
            Measure {
                has_empty: all.has_empty,
                steps: all.steps,
                nesting: all.nesting.saturating_add(1),
                odd_choice: all.odd_choice,
            }
        }
    }
}
