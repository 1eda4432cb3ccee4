// Lines of words.
ghost use Rattle.std.specs.Prelude.{◌≡◌, ◌++◌, ◌∷◌, [], map, OnOk};
ghost use Rattle.process_text.specs.Canonical.{line_of, spaced};
ghost use Rattle.process_report.specs.Blocks.{joined};

use std::alloc::AllocError;

// Writes words with a space before each.
fn put_spaced(out: &mut Vec<u8>, words: &[&[u8]]) -> Result<(), AllocError>
    ensures { OnOk result (out.new.items ≡ out.old.items ++ spaced (map (λ w. w.now) words.now)) }
{
    let mut rest = words;
    while let [word, after @ ..] = rest {
        out.push(b' ')?;
        out.extend_from_slice(word)?;
        rest = after;
    }
    Ok(())
}

/// Writes words with a space between two.
pub fn put_words(out: &mut Vec<u8>, words: &[&[u8]]) -> Result<(), AllocError>
    ensures { OnOk result (out.new.items ≡ out.old.items ++ joined (map (λ w. w.now) words.now)) }
{
    match words {
        [] => Ok(()),
        [first, others @ ..] => {
            out.extend_from_slice(first)?;
            put_spaced(out, others)
        }
    }
}

/// Writes a line.
pub fn put_line(out: &mut Vec<u8>, words: &[&[u8]]) -> Result<(), AllocError>
    ensures { OnOk result (out.new.items ≡ out.old.items ++ line_of (map (λ w. w.now) words.now)) }
{
    put_words(out, words)?;
    out.push(b'\n')?;
    Ok(())
}

/// Writes a line of three words.
pub fn put_three<'a>(
    out: &mut Vec<u8>,
    first: &'a [u8],
    second: &'a [u8],
    third: &'a [u8],
) -> Result<(), AllocError>
    ensures { OnOk result (out.new.items ≡ out.old.items ++ line_of (first.now ∷ second.now ∷ third.now ∷ [])) }
{
    put_line(out, &[first, second, third])
}

/// Writes a line of four words.
pub fn put_four<'a>(
    out: &mut Vec<u8>,
    first: &'a [u8],
    second: &'a [u8],
    third: &'a [u8],
    fourth: &'a [u8],
) -> Result<(), AllocError>
    ensures { OnOk result (out.new.items ≡ out.old.items ++ line_of (first.now ∷ second.now ∷ third.now ∷ fourth.now ∷ [])) }
{
    put_line(out, &[first, second, third, fourth])
}
