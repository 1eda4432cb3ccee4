//! Scenarios of nine operations, some of which conflict.
use std::alloc::{AllocError, Global};

const BEFORE: &[u8] = b"version = 1\n\
    conflicts = [[\"add\", \"take\"], [\"take\", \"take\"], [\"note\", \"note\"], [\"book\", \"book\"]]\n\
    processes = \"\"\"\n";

const BEHIND: &[u8] = b"\"\"\"\n\
    \n[[op]]\nname = \"add\"\nsubsystem = 0\nverb = \"add\"\n\
    \n[[op]]\nname = \"take\"\nsubsystem = 0\nverb = \"take\"\n\
    \n[[op]]\nname = \"pay\"\nsubsystem = 1\nverb = \"add\"\n\
    \n[[op]]\nname = \"ship\"\nsubsystem = 2\nverb = \"add\"\n\
    \n[[op]]\nname = \"note\"\nsubsystem = 4\nverb = \"put\"\n\
    \n[[op]]\nname = \"book\"\nsubsystem = 6\nverb = \"hold\"\n\
    \n[[op]]\nname = \"load\"\nsubsystem = 2\nverb = \"add\"\n\
    \n[[op]]\nname = \"haul\"\nsubsystem = 2\nverb = \"add\"\n\
    \n[[op]]\nname = \"mail\"\nsubsystem = 3\nverb = \"add\"\n";

/// A scenario of nine operations, with these processes, and what stands behind it.
pub fn scenario(alloc: Global, processes: &[u8], behind: &[u8]) -> Result<Vec<u8>, AllocError> {
    let mut text = BEFORE.to_vec(alloc)?;
    text.extend_from_slice(processes)?;
    text.extend_from_slice(BEHIND)?;
    text.extend_from_slice(behind)?;
    Ok(text)
}
