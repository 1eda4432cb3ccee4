// Printing what is written.
ghost use Rattle.std.specs.Prelude.{◌≡◌, ◌≤◌, ◌<◌, ◌+◌, ◌^◌, ◌++◌, ◌∷◌, [], List, map, IfOk, OnOk};
ghost use Rattle.process_expand.specs.Layout.{depth_behind, gap, given_behind, new_line, printed, shown, tail_of};
ghost use Rattle.process_expand.specs.declared.tokens.Token.{Token as Token'};

use crate::naming::{name_given, word_at};
use crate::tokens::{Role, Token};
use std::alloc::{AllocError, Global};
use text_words::Names;

// What is printed of a text.
#[derive(Drop)]
struct Page {
    out: Vec<u8>,
    // The names that were given in this process.
    given: Vec<Vec<u8>>,
    depth: usize,
}

// A line feed, and two spaces for each block.
fn add_new_line(out: &mut Vec<u8>, depth: usize) -> Result<(), AllocError>
    ensures { OnOk result (out.new.items ≡ out.old.items ++ new_line depth) }
{
    out.push(b'\n')?;
    let mut left = depth;
    while left > 0 {
        out.extend_from_slice(b"  ")?;
        left -= 1;
    }
    Ok(())
}

// What stands in front of a word.
fn add_gap(out: &mut Vec<u8>, role: Role, depth: usize) -> Result<(), AllocError>
    ensures { OnOk result (out.new.items ≡ out.old.items ++ gap role depth) }
{
    match role {
        Role::Begins => Ok(()),
        Role::Ends => add_new_line(out, 0),
        Role::Opens | Role::Kind => add_new_line(out, depth),
        Role::Divides | Role::Closes => add_new_line(out, depth.saturating_sub(1)),
        Role::Follows | Role::Name | Role::Other => out.extend_from_slice(b" "),
    }
}

// In how many blocks the word behind this is.
fn depth_behind(role: Role, depth: usize) -> usize
    requires { depth < 2 ^ 63 }
    ensures behind { result ≡ depth_behind role depth }
    ensures small { result ≤ depth + 1 }
{
    match role {
        Role::Begins => 1,
        Role::Opens => depth + 1,
        Role::Closes => depth.saturating_sub(1),
        _ => depth,
    }
}

// The names that are given behind a word.
fn given_behind(
    alloc: Global,
    given: Vec<Vec<u8>>,
    role: Role,
    word: Vec<u8>,
) -> Result<Vec<Vec<u8>>, AllocError>
    ensures { IfOk result
        (λ names. map (λ g. g.items) names.items ≡ given_behind (map (λ g. g.items) given.items) role word.items) }
{
    match role {
        Role::Begins => Ok(Vec::new(alloc)),
        Role::Name => {
            let mut given = given;
            given.push(word)?;
            Ok(given)
        }
        _ => Ok(given),
    }
}

// The word that is printed.
fn shown(
    alloc: Global,
    all: &Names<'_>,
    given: &[Vec<u8>],
    role: Role,
    word: &[u8],
) -> Result<Vec<u8>, AllocError>
    ensures { IfOk result (λ text. text.items ≡ shown all.now (map (λ g. g.items) given.now) role word.now) }
{
    match role {
        Role::Name => name_given(alloc, all, given, word),
        _ => word.to_vec(alloc),
    }
}

// Adds a word with what stands around it.
fn add_word(out: &mut Vec<u8>, role: Role, depth: usize, word: &[u8]) -> Result<(), AllocError>
    ensures { OnOk result (out.new.items ≡ out.old.items ++ gap role depth ++ word.now ++ tail_of role) }
{
    add_gap(out, role, depth)?;
    out.extend_from_slice(word)?;
    if role == Role::Ends {
        out.push(b'\n')?;
    }
    Ok(())
}

// Adds a token.
fn add_token(
    alloc: Global,
    words: &[&[u8]],
    all: &Names<'_>,
    page: Page,
    token: Token,
) -> Result<Page, AllocError>
    requires { page.depth < 2 ^ 63 }
    ensures printed { IfOk result (λ p. (ts : List Token')
        → p.out.items ++ printed (map (λ w. w.now) words.now) all.now (map (λ g. g.items) p.given.items) p.depth ts
        ≡ page.out.items ++ printed (map (λ w. w.now) words.now) all.now (map (λ g. g.items) page.given.items) page.depth (token ∷ ts)) }
    ensures depth { IfOk result (λ p. p.depth ≤ page.depth + 1) }
{
    let Page {
        mut out,
        given,
        depth,
    } = page;
    let word = shown(alloc, all, &given, token.role, word_at(words, token.number))?;
    add_word(&mut out, token.role, depth, &word)?;
    let given = given_behind(alloc, given, token.role, word)?;
    Ok(Page {
        out,
        given,
        depth: depth_behind(token.role, depth),
    })
}

/// What is printed of these tokens, where these are the names of the text.
pub fn printed(
    alloc: Global,
    words: &[&[u8]],
    all: &Names<'_>,
    tokens: &[Token],
) -> Result<Vec<u8>, AllocError>
    ensures { IfOk result (λ text. text.items ≡ printed (map (λ w. w.now) words.now) all.now [] 0 tokens.now) }
{
    let mut page = Page {
        out: Vec::new(alloc),
        given: Vec::new(alloc),
        depth: 0,
    };
    for token in tokens {
        page = add_token(alloc, words, all, page, *token)?;
    }
    Ok(page.out)
}
