//! The loop that reads a whole text.
ghost use Rattle.std.specs.Prelude.{◌≡◌, ℕ, ◌+◌, ◌<◌, ◌≤◌, [], length, Err, IfOk, IfSome, OnOk, OnErr, vec_len};
ghost use Rattle.xe_scene.specs.Scene.{text_most};
ghost use Rattle.xe_run.specs.Told.{preceded_by, is_told, Rose};
ghost use Rattle.xe_run.specs.declared.whole_text.ReadError.TheVariants.{Fault, NoMemory};

use crate::outside::{Failed, Source};
use std::alloc::{AllocError, Global};
use xe_scene::TEXT_MOST;

/// The bytes that are read at most: one more than a scenario text may have.
const READ_LIMIT: usize = TEXT_MOST + 1;

/// The bytes that are asked for at once.
const PIECE: usize = 4096;

/// Why a text wasn't read.
#[derive(Clone, Copy, Debug, PartialEq, Eq)]
pub(crate) enum ReadError {
    Fault,
    NoMemory,
}

impl From<AllocError> for ReadError {
    ghost from_gives = { λ _ e. e ≡ NoMemory };

    fn from(_e: AllocError) -> ReadError {
        ReadError::NoMemory
    }
}

impl From<Failed> for ReadError {
    ghost from_gives = { λ _ e. e ≡ Fault };

    fn from(_e: Failed) -> ReadError {
        ReadError::Fault
    }
}

/// Reads to the end, or until one byte more was taken than a scenario text may have. Each turn takes
/// at least one byte or meets the end.
pub(crate) fn read_text<S: Source>(alloc: Global, src: &mut S) -> Result<Vec<u8>, ReadError>
    ensures taken { IfOk result (λ text. S.left src.old ≡ preceded_by text.items (S.left src.new)) }
    ensures bounded { IfOk result (λ text. vec_len text ≤ text_most + 1) }
    ensures ended { IfOk result (λ text. vec_len text < text_most + 1 → IfSome (S.left src.new) (λ rest. rest ≡ [])) }
    ensures told { is_told (S.left src.new) ≡ is_told (S.left src.old) }
    ensures count { S.faults src.old ≤ S.faults src.new }
    ensures fault { result ≡ Err ReadError.Fault → Rose (S.faults src.old) (S.faults src.new) }
{
    let mut text = Vec::new(alloc);
    let mut piece = [0u8; PIECE];
    while text.len() < READ_LIMIT {
        let room = PIECE.min(READ_LIMIT - text.len());
        let count = src.read(&mut piece[..room])?;
        if count == 0 {
            return Ok(text);
        }
        text.extend_from_slice(&piece[..count])?;
    }
    Ok(text)
}
