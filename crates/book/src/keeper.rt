//! The trait of keepers.
//!
//! A store is clean while it returns what was written to it. The trait says what a call answers if the store is clean after it, and else
//! promises nothing.
//!
//! A keeper that a failed commit has shut refuses each call from then on: its files have to be opened again before a call is repeated. So
//! what a refusal leaves is said of keepers that are still open.
//!
//! The bytes of a body that is coming are a value of each keeper beside its book (`coming`), and no field of the book. So books are
//! compared without them, and what is said of books needs no word on them.
//!
//! `arrive` is a method of the trait: `begin`, the pieces, `finish`. So a body in memory and one that a reader gives take one way.

ghost use Rattle.std.specs.Prelude.{◌≡◌, ◌≤◌, All, ◌++◌, ◌⊎◌, [], ℕ, Bool, List, Option, Some, None, IfOk, IfErr, OnOk, OnErr, find, length, map};
ghost use Rattle.std.specs.Option.{option_map};
ghost use Rattle.book.specs.Book.{Book, amended, arrived_file, at_moment, due, ended, is_arrival_of, is_kept, latest, shown_past, span, text_at, upload_of, waiting_list};
ghost use Rattle.book.specs.Configured.{IsConfiguration, reconfigured};
ghost use Rattle.book.specs.Keeping.{Apart, Endures, HasEachBody, IsDeliverable, IsLeftDelivered, IsSound, IsWholeFor, Lasts, Leaves, MayAnswer, OverComing, Reads, Stays, TakesDelivery, TakesPiece, TellsNew, sign_of};
ghost use Rattle.book.specs.Pieces.{piece_of_body, piece_value};
ghost use Rattle.sums.specs.Prints.{print as print_of};

use crate::arrived::ArrivedFile;
use crate::change::{Change, IndexText, Judgement, Waiting};
use crate::configured::Configured;
use crate::fault::KeepFault;
use crate::piece::{FilePiece, piece_of};
use crate::printing::is_kept;
use rules::Config;
use std::alloc::Global;
use suites::{Shelves, Upload};
use sums::Print;

/// The most bytes of a piece of a body. Each piece of a body but its last has as many.
pub const PIECE_SIZE: usize = 65_536;

/// What keeps an archive: a configuration, arrivals with their bodies, uploads with their verdicts, what the suites show
/// with its files, index texts and dates. After a refusal it is as before, or shut: a keeper that a fault of its disk has
/// shut refuses every call from then on. What a call answers is said of keepers whose store returns what was written to it.
pub trait Keeper {
    /// The store of the keeper has so far returned whatever was written to it. What a call answers is said of such keepers.
    ghost is_clean: { Self → Type 0 };

    /// No fault of the disk has shut the keeper. A keeper that is shut no longer serves and doesn't come back.
    ghost is_open: { Self → Type 0 };

    /// How many times the disk has failed or refused.
    ghost faults: { Self → ℕ };

    /// What is kept, however it is kept. Of a keeper that is shut it says something of the configuration alone.
    ghost book: { Self → Book };

    /// The bytes so far of the body that is coming, if one was begun. It is no arrival and no part of the book.
    ghost coming: { Self → Option (List ℕ) };

    /// Whether the keeper can answer a fault of a disk or of size at all.
    ghost may_fail: { Bool };

    /// What an opening of the store may find after a crash at this moment: a book, or no archive.
    ghost may_leave: { Self → Option Book → Type 0 };

    /// The configuration that the archive has.
    fn config(&self) -> &Config
        ensures { result.now ≡ (book self.now).config };

    /// The dates of the suites, in the order of the configuration.
    fn dates(&self) -> &[u64]
        ensures dates { result.now ≡ (book self.now).dates }
        ensures in_range { ∥ All (λ date. date ≤ latest) result.now ∥₁ };

    /// Begins a body: what is coming has no byte yet, and a body that was begun before is forgotten.
    fn begin(&mut self, alloc: Global) -> Result<(), KeepFault>
        ensures stays { Stays is_clean is_open faults book may_leave self.old self.new }
        ensures served { is_clean self.new → OnOk result (is_open self.new) }
        ensures begun { is_clean self.new → OnOk result (coming self.new ≡ Some []) }
        ensures refused { OnErr result (coming self.new ≡ None) }
        ensures cause { IfErr result (MayAnswer may_fail) };

    /// Takes the next piece of the body that was begun. After a refusal no body is coming.
    fn piece(&mut self, alloc: Global, bytes: &[u8]) -> Result<(), KeepFault>
        requires begun { is_clean self.now → is_open self.now → TakesPiece (coming self.now) bytes.now }
        ensures stays { Stays is_clean is_open faults book may_leave self.old self.new }
        ensures served { is_clean self.new → OnOk result (is_open self.new) }
        ensures taken { is_clean self.new → OnOk result (coming self.new ≡ option_map (λ body. body ++ bytes.now) (coming self.old)) }
        ensures refused { OnErr result (coming self.new ≡ None) }
        ensures cause { IfErr result (MayAnswer may_fail) };

    /// Takes the body that was begun as one that has arrived under a file name, and answers whether that is new: whether no
    /// arrival of this name and body counts at the moment. No body is coming afterwards, also after a refusal. Bodies are
    /// distinguished by their prints, so the contract speaks of bodies of which no two have one print. A crash leaves what
    /// it would have left before, or the book with the delivery.
    fn finish(&mut self, alloc: Global, name: &str, moment: u64) -> Result<bool, KeepFault>
        requires in_time { moment ≤ latest }
        requires whole { is_clean self.now → is_open self.now → IsWholeFor (coming self.now) name.now }
        ensures lasts { Lasts is_clean is_open faults book self.old self.new }
        ensures served { is_clean self.new → OnOk result (is_open self.new) }
        ensures ended { coming self.new ≡ None }
        ensures new { is_clean self.new → IfOk result (λ new. OverComing (coming self.old) (TellsNew (book self.old) name.now moment new)) }
        ensures ok { is_clean self.new → OnOk result (OverComing (coming self.old) (TakesDelivery (book self.old) name.now moment (book self.new))) }
        ensures err { is_clean self.new → is_open self.new → OnErr result (book self.new ≡ book self.old) }
        ensures cause { IfErr result (MayAnswer may_fail) }
        ensures crash { Leaves is_clean is_open may_leave self.old self.new (λ left.
            OverComing (coming self.old) (IsLeftDelivered (book self.old) name.now moment left)) };

    /// Forgets the body that is coming. If none was begun nothing changes.
    fn abandon(&mut self) -> Result<(), KeepFault>
        ensures stays { Stays is_clean is_open faults book may_leave self.old self.new }
        ensures served { is_clean self.new → OnOk result (is_open self.old → is_open self.new) }
        ensures ended { coming self.new ≡ None }
        ensures nothing { coming self.old ≡ None → self.new ≡ self.old }
        ensures cause { IfErr result (MayAnswer may_fail) };

    /// Takes an arrival, a file name and a body, and answers whether it is new, as `finish` does: a body is begun, its
    /// pieces follow, and it is finished. Bodies are distinguished by their prints, so the contract speaks of bodies of
    /// which no two have one print. A crash leaves what it would have left before, the book, or the book with the delivery.
    fn arrive(
        &mut self,
        alloc: Global,
        name: &str,
        body: &[u8],
        moment: u64,
    ) -> Result<bool, KeepFault>
        requires in_time { moment ≤ latest }
        requires deliverable { IsDeliverable name.now body.now }
        ensures lasts { Lasts is_clean is_open faults book self.old self.new }
        ensures served { is_clean self.new → OnOk result (is_open self.new) }
        ensures new { is_clean self.new → IfOk result (λ new. TellsNew (book self.old) name.now moment new body.now) }
        ensures ok { is_clean self.new → OnOk result (TakesDelivery (book self.old) name.now moment (book self.new) body.now) }
        ensures err { is_clean self.new → is_open self.new → OnErr result (book self.new ≡ book self.old) }
        ensures cause { IfErr result (MayAnswer may_fail) }
        ensures crash { Leaves is_clean is_open may_leave self.old self.new (λ left. (left ≡ Some (book self.old)) ⊎ IsLeftDelivered (book self.old) name.now moment left body.now) }
    {
        self.begin(alloc)?;
        let mut rest = body;
        while !rest.is_empty() {
            let (piece, more) = rest.split_at(rest.len().min(PIECE_SIZE));
            self.piece(alloc, piece)?;
            rest = more;
        }
        self.finish(alloc, name, moment)
    }

    /// The uploads without a verdict whose entries have all arrived, in the order of the bytes of their names, then of
    /// their SHA-256, SHA-1, MD5 and sizes. Only arrivals that count at the moment are looked at.
    fn complete_uploads(&mut self, alloc: Global, moment: u64) -> Result<Vec<Upload>, KeepFault>
        requires { moment ≤ latest }
        ensures reads { Reads is_clean is_open faults book may_leave self.old self.new }
        ensures served { is_clean self.new → OnOk result (is_open self.new) }
        // The names and prints of the uploads, whatever the bodies.
        ensures signs { is_clean self.new → IfOk result (λ uploads.
            map (λ u. (u.name, u.print)) uploads.items ≡ map sign_of (due (at_moment moment (book self.old)))) }
        ensures uploads { is_clean self.new → IfOk result (λ uploads. Apart (book self.old)
            (uploads.items ≡ map (upload_of (at_moment moment (book self.old)).arrivals) (due (at_moment moment (book self.old))))) }
        ensures cause { IfErr result (MayAnswer may_fail) };

    /// What the suites show.
    fn shelves(&mut self, alloc: Global) -> Result<Shelves, KeepFault>
        ensures reads { Reads is_clean is_open faults book may_leave self.old self.new }
        ensures served { is_clean self.new → OnOk result (is_open self.new) }
        ensures shelves { is_clean self.new → IfOk result (λ shelves. shelves ≡ (book self.old).shown) }
        ensures cause { IfErr result (MayAnswer may_fail) };

    /// Makes the whole change, or none of it. The contract says what the book is afterwards if the book has each body that
    /// the change needs. A crash leaves what it would have left before, or the book with the whole change.
    fn apply(&mut self, alloc: Global, change: &Change) -> Result<(), KeepFault>
        requires in_time { change.now.moment ≤ latest }
        requires sound { is_clean self.now → is_open self.now → IsSound (book self.now) change.now }
        ensures lasts { Lasts is_clean is_open faults book self.old self.new }
        ensures served { is_clean self.new → OnOk result (is_open self.new) }
        ensures ok { is_clean self.new → OnOk result (Apart (book self.old) (HasEachBody (book self.old) change.now
            → book self.new ≡ amended (book self.old) change.now)) }
        // What the suites show afterwards, whatever the bodies.
        ensures shown { is_clean self.new → OnOk result ((book self.new).shown ≡ shown_past (book self.old).shown change.now.steps) }
        ensures err { is_clean self.new → is_open self.new → OnErr result (book self.new ≡ book self.old) }
        ensures cause { IfErr result (MayAnswer may_fail) }
        ensures crash { Leaves is_clean is_open may_leave self.old self.new (λ left. Apart (book self.old) (HasEachBody (book self.old) change.now
            → left ≡ Some (amended (book self.old) change.now))) };

    /// Takes what the suites show, as a change has left it, so that the next call of `shelves` need not make it anew. Nothing
    /// that is kept changes.
    fn hold(&mut self, shelves: Shelves)
        requires shown { is_clean self.now → is_open self.now → shelves ≡ (book self.now).shown }
        ensures reads { Reads is_clean is_open faults book may_leave self.old self.new }
        ensures served { is_clean self.new → is_open self.old → is_open self.new }
        ensures beside { coming self.new ≡ coming self.old };

    /// Takes away each arrival that does not count at the moment, and says how many there were. The verdicts, what the suites
    /// show and the files stay. A crash leaves what it would have left before, or the book without these arrivals. It has
    /// nothing to do with what `is_clean` says.
    fn clean(&mut self, alloc: Global, moment: u64) -> Result<u64, KeepFault>
        requires { moment ≤ latest }
        ensures lasts { Lasts is_clean is_open faults book self.old self.new }
        ensures served { is_clean self.new → OnOk result (is_open self.new) }
        ensures count { is_clean self.new → IfOk result (λ count.
            count ≡ length (ended (span (book self.old).config) moment (book self.old).arrivals)) }
        ensures ok { is_clean self.new → OnOk result (book self.new ≡ at_moment moment (book self.old)) }
        ensures err { is_clean self.new → is_open self.new → OnErr result (book self.new ≡ book self.old) }
        ensures cause { IfErr result (MayAnswer may_fail) }
        ensures crash { Leaves is_clean is_open may_leave self.old self.new (λ left. left ≡ Some (at_moment moment (book self.old))) };

    /// Takes another configuration, with what the suites show under it and their dates. Arrivals, verdicts, items and files stay,
    /// and the index texts are those of it. It takes all or nothing. A crash leaves what it would have left before, or the book
    /// with all of it.
    fn configure(&mut self, alloc: Global, next: Configured) -> Result<(), KeepFault>
        requires sound { is_clean self.now → is_open self.now → IsConfiguration (book self.now) next.config next.shelves }
        ensures endures { Endures is_clean is_open faults self.old self.new }
        ensures served { is_clean self.new → OnOk result (is_open self.new) }
        ensures ok { is_clean self.new → OnOk result (book self.new ≡ reconfigured next.config next.shelves next.dates.items (book self.old)) }
        ensures err { is_clean self.new → is_open self.new → OnErr result (book self.new ≡ book self.old) }
        // The configuration, also if the keeper is not clean, or is shut.
        ensures given { OnOk result ((book self.new).config ≡ next.config) }
        ensures stays { OnErr result ((book self.new).config ≡ (book self.old).config) }
        ensures cause { IfErr result (MayAnswer may_fail) }
        ensures crash { Leaves is_clean is_open may_leave self.old self.new (λ left.
            left ≡ Some (reconfigured next.config next.shelves next.dates.items (book self.old))) };

    /// The file of the pool at a path without a leading slash.
    fn file(&mut self, alloc: Global, path: &str) -> Result<Option<Vec<u8>>, KeepFault>
        ensures reads { Reads is_clean is_open faults book may_leave self.old self.new }
        ensures served { is_clean self.new → OnOk result (is_open self.new) }
        ensures file { is_clean self.new → IfOk result (λ file. option_map (λ body. body.items) file ≡ (book self.old).files path.now) }
        ensures cause { IfErr result (MayAnswer may_fail) };

    /// The piece at a place, from 0, of the file of the pool at a path without a leading slash, and how many bytes the
    /// whole file has. Each piece but the last has `PIECE_SIZE` bytes, and after the last piece none has any. A keeper that
    /// stores pieces reads one of them alone.
    fn file_piece(
        &mut self,
        alloc: Global,
        path: &str,
        number: u32,
    ) -> Result<Option<FilePiece>, KeepFault>
        ensures reads { Reads is_clean is_open faults book may_leave self.old self.new }
        ensures served { is_clean self.new → OnOk result (is_open self.new) }
        ensures piece { is_clean self.new → IfOk result (λ piece.
            option_map piece_value piece ≡ option_map (piece_of_body number) ((book self.old).files path.now)) }
        ensures cause { IfErr result (MayAnswer may_fail) }
    {
        match self.file(alloc, path)? {
            Some(body) => Ok(Some(piece_of(alloc, body.as_slice(), number)?)),
            None => Ok(None),
        }
    }

    /// The index text at a path without a leading slash.
    fn text(&mut self, alloc: Global, path: &str) -> Result<Option<Vec<u8>>, KeepFault>
        ensures reads { Reads is_clean is_open faults book may_leave self.old self.new }
        ensures served { is_clean self.new → OnOk result (is_open self.new) }
        ensures text { is_clean self.new → IfOk result (λ text. option_map (λ body. body.items) text ≡ text_at (book self.old) path.now) }
        ensures cause { IfErr result (MayAnswer may_fail) };

    /// The print of the index text at a path without a leading slash.
    fn text_print(&mut self, alloc: Global, path: &str) -> Result<Option<Print>, KeepFault>
        ensures reads { Reads is_clean is_open faults book may_leave self.old self.new }
        ensures served { is_clean self.new → OnOk result (is_open self.new) }
        ensures print { is_clean self.new → IfOk result (λ found. found ≡ option_map print_of (text_at (book self.old) path.now)) }
        ensures cause { IfErr result (MayAnswer may_fail) };

    /// Whether the index text at the path of this one is this text. A keeper that knows of another print there need not look
    /// at the text.
    fn keeps_text(&mut self, alloc: Global, text: &IndexText) -> Result<bool, KeepFault>
        ensures reads { Reads is_clean is_open faults book may_leave self.old self.new }
        ensures served { is_clean self.new → OnOk result (is_open self.new) }
        ensures kept { is_clean self.new → IfOk result (λ kept. kept ≡ is_kept (text_at (book self.old) text.now.path) text.now.text) }
        ensures cause { IfErr result (MayAnswer may_fail) }
    {
        let kept = self.text(alloc, text.path.as_str())?;
        Ok(is_kept(&kept, text.text.as_slice()))
    }

    /// The uploads without a verdict whose .changes counts at the moment, in the order of `complete_uploads`, each with what it
    /// lacks: its listed files of which no arrival counts at the moment, in the order of their names.
    fn waiting(&mut self, alloc: Global, moment: u64) -> Result<Vec<Waiting>, KeepFault>
        requires { moment ≤ latest }
        ensures reads { Reads is_clean is_open faults book may_leave self.old self.new }
        ensures served { is_clean self.new → OnOk result (is_open self.new) }
        ensures waiting { is_clean self.new → IfOk result (λ waiting. Apart (book self.old)
            (waiting.items ≡ waiting_list moment (book self.old))) }
        ensures cause { IfErr result (MayAnswer may_fail) };

    /// What has arrived and was not taken away, without its bytes, in the order of first deliveries. This includes what no
    /// longer counts.
    fn arrivals(&mut self, alloc: Global) -> Result<Vec<ArrivedFile>, KeepFault>
        ensures reads { Reads is_clean is_open faults book may_leave self.old self.new }
        ensures served { is_clean self.new → OnOk result (is_open self.new) }
        ensures arrivals { is_clean self.new → IfOk result (λ files. files.items ≡ map arrived_file (book self.old).arrivals) }
        ensures cause { IfErr result (MayAnswer may_fail) };

    /// The body of this print that arrived under a name, and was not taken away.
    fn arrived_body(
        &mut self,
        alloc: Global,
        name: &str,
        print: &Print,
    ) -> Result<Option<Vec<u8>>, KeepFault>
        ensures reads { Reads is_clean is_open faults book may_leave self.old self.new }
        ensures served { is_clean self.new → OnOk result (is_open self.new) }
        ensures body { is_clean self.new → IfOk result (λ found.
            option_map (λ body. body.items) found ≡ option_map (λ a. a.body) (find (is_arrival_of name.now print.now) (book self.old).arrivals)) }
        ensures cause { IfErr result (MayAnswer may_fail) };

    /// The judged uploads in the order in which they were judged.
    fn verdicts(&mut self, alloc: Global) -> Result<Vec<Judgement>, KeepFault>
        ensures reads { Reads is_clean is_open faults book may_leave self.old self.new }
        ensures served { is_clean self.new → OnOk result (is_open self.new) }
        ensures verdicts { is_clean self.new → IfOk result (λ judged. judged.items ≡ (book self.old).judged) }
        ensures cause { IfErr result (MayAnswer may_fail) };

    /// While the keeper is open a crash leaves what is kept, and nothing else.
    ghost settled: { (k : Self) (left : Option Book) → is_clean k → is_open k → may_leave k left → left ≡ Some (book k) };
}
