//! Answers of an archive whose disk failed.

/// The answer of an archive whose disk failed. The number of bytes that a reader has left may follow it.
const REFUSED: &[u8] = b"Q4 K2";

const REFUSED_BESIDE: &[u8] = b"Q4 K2 ";

/// The answer of such an archive to another configuration.
const REFUSED_ALONE: &[u8] = b"K2";

/// Whether a text has a line.
fn has_line(text: &[u8], line: &[u8]) -> bool {
    text.split(|byte| *byte == b'\n').any(|other| other == line)
}

/// Whether a line says that the disk failed.
pub fn is_refused_line(line: &[u8]) -> bool {
    line == REFUSED || line == REFUSED_ALONE || line.starts_with(REFUSED_BESIDE)
}

/// Whether an answer is the right one, except that all or some of it was refused because the disk failed.
pub fn is_refusal(answer: &[u8], right: &[u8]) -> bool {
    for line in answer.split(|byte| *byte == b'\n') {
        if !is_refused_line(line) && !has_line(right, line) {
            return false;
        }
    }
    answer
        .split(|byte| *byte == b'\n')
        .any(|line| is_refused_line(line))
}
