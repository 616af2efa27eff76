//! What an archive showed and answered, compared with what is wanted.

use test_story::is_refusal;

/// The beginning of the piece that is the configuration.
const CONFIGURATION: &[u8] = b"configuration:\n";

/// What an archive shows, its answer to a question, and what it then shows.
#[derive(Clone, Copy)]
struct Told<'a> {
    before: &'a [Vec<u8>],
    answer: &'a [u8],
    behind: &'a [Vec<u8>],
}

/// Pieces of which as many come before the answer as after it.
fn parts(pieces: &[Vec<u8>]) -> Told<'_> {
    let (before, rest) = pieces.split_at(pieces.len() / 2);
    match rest.split_first() {
        Some((answer, behind)) => Told {
            before,
            answer: answer.as_slice(),
            behind,
        },
        None => Told {
            before,
            answer: b"",
            behind: &[],
        },
    }
}

/// Whether a piece is an answer of which all was refused, or shows that the look-up of its path was refused.
fn is_refused(piece: &[u8]) -> bool {
    piece.ends_with(b":\nQ4 K2\n") || is_refusal(piece, b"")
}

/// Whether a piece is the configuration, for which no disk is read.
fn is_configuration(piece: &[u8]) -> bool {
    piece.starts_with(CONFIGURATION)
}

/// Whether all pieces were refused, except the configuration.
pub fn are_refused(pieces: &[Vec<u8>]) -> bool {
    for piece in pieces {
        if !is_configuration(piece.as_slice()) && !is_refused(piece.as_slice()) {
            return false;
        }
    }
    true
}

/// Whether the pieces are these, except those that were refused.
fn are_like(found: &[Vec<u8>], wanted: &[Vec<u8>]) -> bool {
    for (found, wanted) in found.iter().zip(wanted) {
        if found.as_slice() != wanted.as_slice() && !is_refused(found.as_slice()) {
            return false;
        }
    }
    found.len() == wanted.len()
}

/// Whether an archive answered a question like another.
pub fn is_answer(found: &[Vec<u8>], wanted: &[Vec<u8>]) -> bool {
    parts(found).answer == parts(wanted).answer
}

/// Whether an archive showed and answered the same as another, except what was refused. If the question was refused, the archive
/// has to show afterwards what it showed before.
pub fn is_like(found: &[Vec<u8>], wanted: &[Vec<u8>]) -> bool {
    if is_answer(found, wanted) {
        return are_like(found, wanted);
    }
    let (found, wanted) = (parts(found), parts(wanted));
    if !is_refusal(found.answer, wanted.answer) {
        return false;
    }
    let is_before = are_like(found.before, wanted.before);
    let is_behind = are_like(found.behind, wanted.before);
    is_before && is_behind
}
