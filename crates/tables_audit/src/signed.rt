//! Whether the judged uploads may have been delivered.
//!
//! A judged upload may be there without an arrival of its .changes, since cleanings take arrivals away. Its row then has the name of a
//! .changes that may be delivered, and at most 1,048,576 bytes.

ghost use Rattle.std.specs.Prelude.{◌≡◌, ◌↔◌, IsTrue, length};
ghost use Rattle.tables.specs.Real.{IsRealPrint};
ghost use Rattle.tables_meaning.specs.Kept.{AreSigned, IsSigned};

use book::Judgement;
use records::MOST_CHANGES;
use sums::{Print, is_changes_name, is_file_name};

/// An array of N bytes has the length N. For the prover alone: the law is the contract.
fn has_length<const N: usize>(bytes: &[u8; N])
    ensures { length bytes.now ≡ N }
{
    let _ = bytes;
}

/// The digests of a print have 16, 20 and 32 bytes. For the prover alone: the law is the contract.
fn has_lengths(print: &Print)
    ensures { IsRealPrint print.now }
{
    has_length(&print.md5);
    has_length(&print.sha1);
    has_length(&print.sha256);
}

/// Whether an upload has the name of a .changes that may be delivered, and a print that a .changes may have.
fn is_signed(judgement: &Judgement) -> bool
    ensures { IsTrue result ↔ IsSigned judgement.now.name judgement.now.print }
{
    // For the prover alone: the digests have their lengths.
    has_lengths(&judgement.print);
    let name = judgement.name.as_str();
    is_changes_name(name) && is_file_name(name) && judgement.print.size <= MOST_CHANGES as u64
}

/// Whether each of the judged uploads may have been delivered.
pub fn are_signed(judged: &[Judgement]) -> bool
    ensures { IsTrue result ↔ AreSigned judged.now }
{
    for judgement in judged {
        if !is_signed(judgement) {
            return false;
        }
    }
    true
}
