//! The archive over a keeper.
//!
//! The keeper of an `Archive` is a public field. Through it a program reads what the keeper knows, such as its configuration, and the
//! clauses name it. A change that is made to a keeper without its archive is no call of a history.
//!
//! A delivery is stored by several commits. So a crash during a delivery may leave what would have been left before it, the book before,
//! or the book with the delivery (`LeavesDelivery`). The book before does not weaken the promise, since an open keeper
//! leaves its book alone (`settled`). A run, a cleaning, a copy, a promotion and a removal are one commit each, so `LeavesStep` has two
//! cases for them. The laws on stops are stated of what follows from either (`LeavesCall`).

ghost use Rattle.std.specs.Prelude.{◌≡◌, ◌⊎◌, ◌<◌, ◌≤◌, ⊤, true, Some, None, Err, IfOk, IfErr, IfSome, OnOk, OnErr, false, map};
ghost use Rattle.std.specs.Option.{option_map};
ghost use Rattle.history.specs.Amending.{IsPlanned, OnceAmended};
ghost use Rattle.history.specs.Answers.{copy_line, is_free_copy, is_free_removal};
ghost use Rattle.history.specs.Commands.{stored, reported, counted, found, copies_of, lines_of, names_given, promoted};
ghost use Rattle.history.specs.Copies.{copy_fault};
ghost use Rattle.history.specs.Histories.{Delivery, QueueRun, Copying, Lookup, WaitingList, Cleaning, Removing, Promoting, VerdictList};
ghost use Rattle.book.specs.Book.{latest};
ghost use Rattle.history.specs.Deliveries.{delivery_fault, IsKeepers};
ghost use Rattle.history.specs.Promotions.{IsPromotionFault, promotion_fault};
ghost use Rattle.history.specs.Removals.{removal_fault};
ghost use Rattle.book.specs.Configured.{configured, keeps_shown};
ghost use Rattle.book.specs.Keeping.{MayAnswer};
ghost use Rattle.book.specs.Pieces.{piece_of_body, piece_value};
ghost use Rattle.book.specs.declared.fault.KeepFault.TheVariants.{Configuration};
ghost use Rattle.history.specs.Configuring.{Configures, Endures, LeavesConfigured};
ghost use Rattle.queue.specs.Pieces.{is_piece_at};
ghost use Rattle.history.specs.Steps.{Does, IsServed, IsUndone, Lasts, Leaves, LeavesDelivery, LeavesStep, Reads};

use crate::delivery::check_delivery;
use crate::pieces::is_piece_at;
use crate::run::judged_steps;
use book::{Change, FilePiece, KeepFault, Keeper, LATEST, Step};
use history::{
    Arrived, Copied, Fault, Promotion, Report, copied_steps, copy_lines, copy_plan, groups_of,
    only_step, removal_plan, report_lines, sources_of, suite_position, two_suites, verdict_lines,
    waiting_lines,
};
use para::Listed;
use renewing::{LastTexts, configured, renewed_texts};
use rules::Config;
use std::alloc::Global;
use suites::Shelves;

/// An archive, over the keeper that keeps it between calls.
#[derive(Drop)]
pub struct Archive<K: Keeper> {
    pub keeper: K,
    /// What is kept of the index texts that were made last, so that the next ones are made in less time.
    last: LastTexts,
}

impl<K: Keeper> Archive<K> {
    /// The archive that a keeper keeps.
    pub fn new(alloc: Global, keeper: K) -> Self
        ensures { result.keeper ≡ keeper }
    {
        Archive {
            keeper,
            last: LastTexts::new(alloc),
        }
    }

    /// The keeper of the archive.
    pub fn into_keeper(self) -> K
        ensures { result ≡ self.keeper }
    {
        let Archive { keeper, last: _ } = self;
        keeper
    }

    /// Takes a delivery of a body under a file name at a moment, in seconds since 1970-01-01 00:00:00 UTC, and says whether it is new:
    /// whether no arrival of that name and body counts at the moment. It is refused, with the lowest fault that applies, for a bad name,
    /// a body that is too large for the configuration (`most_named`), a name that ends in `.changes` with a body that is no .changes or
    /// lists a file that is too large, and a moment after 2099.
    pub fn deliver(
        &mut self,
        alloc: Global,
        name: &str,
        body: &[u8],
        moment: u64,
    ) -> Result<Arrived, Fault>
        ensures lasts { Lasts K.Keeper self.old.keeper self.new.keeper }
        // After a success the keeper is open.
        ensures served { IsServed K.Keeper self.new.keeper (stored result) }
        ensures step { Does K.Keeper self.old.keeper (Delivery name.now body.now moment) (stored result) self.new.keeper }
        // A refusal leaves the book as it was, whatever the history.
        ensures err { OnErr result (IsUndone K.Keeper self.old.keeper self.new.keeper) }
        // A crash leaves what it would have left before, what the history left, or all that the call does.
        ensures crash { LeavesDelivery K.Keeper self.old.keeper name.now body.now moment self.new.keeper }
        ensures done { IfOk result (λ _. delivery_fault (K.book self.old.keeper).config name.now body.now moment ≡ None) }
        // The fault is the one by configuration, name, body and moment, or else one of the keeper's own.
        ensures refused { IfErr result (λ e. (delivery_fault (K.book self.old.keeper).config name.now body.now moment ≡ Some e)
            ⊎ IsKeepers K.may_fail (delivery_fault (K.book self.old.keeper).config name.now body.now moment ≡ None) e) }
    {
        check_delivery(alloc, self.keeper.config(), name, body, moment)?;
        if self.keeper.arrive(alloc, name, body, moment)? {
            Ok(Arrived::New)
        } else {
            Ok(Arrived::Again)
        }
    }

    /// Makes steps, which leave these shelves, in one change at a moment. The index texts that the steps change are part of it.
    fn amend(
        &mut self,
        alloc: Global,
        steps: Listed<Step>,
        shelves: Shelves,
        moment: u64,
    ) -> Result<(), KeepFault>
        requires in_time { moment ≤ latest }
        requires planned { K.is_clean self.now.keeper → K.is_open self.now.keeper → IsPlanned (K.book self.now.keeper) moment steps shelves }
        ensures lasts { Lasts K.Keeper self.old.keeper self.new.keeper }
        ensures served { K.is_clean self.new.keeper → OnOk result (K.is_open self.new.keeper) }
        ensures ok { K.is_clean self.new.keeper → OnOk result (OnceAmended (K.book self.old.keeper) moment steps (λ book. K.book self.new.keeper ≡ book)) }
        ensures err { OnErr result (IsUndone K.Keeper self.old.keeper self.new.keeper) }
        ensures cause { IfErr result (MayAnswer K.may_fail) }
        // A crash leaves what it would have left before, or all that the steps do.
        ensures crash { Leaves K.Keeper self.old.keeper self.new.keeper (λ left. OnceAmended (K.book self.old.keeper) moment steps (λ book. left ≡ Some book)) }
    {
        let texts = renewed_texts(
            alloc,
            &mut self.keeper,
            &mut self.last,
            &shelves,
            steps.as_slice(),
            moment,
        )?;
        let change = Change {
            moment,
            steps,
            texts: Listed::from_vec(texts),
        };
        self.keeper.apply(alloc, &change)?;
        self.keeper.hold(shelves);
        Ok(())
    }

    /// Judges each upload that has no verdict and is complete by what counts at a moment, in seconds since 1970-01-01 00:00:00 UTC, and
    /// reports a line for each. It is refused for a moment after 2099. If it is refused and the keeper is open, no upload was judged.
    pub fn run(&mut self, alloc: Global, moment: u64) -> Result<Report, Fault>
        ensures lasts { Lasts K.Keeper self.old.keeper self.new.keeper }
        // After a success the keeper is open.
        ensures served { IsServed K.Keeper self.new.keeper (reported result) }
        ensures step { Does K.Keeper self.old.keeper (QueueRun moment) (reported result) self.new.keeper }
        // A refusal leaves the book as it was, whatever the history.
        ensures err { OnErr result (IsUndone K.Keeper self.old.keeper self.new.keeper) }
        // A crash leaves what it would have left before, or all that the call does.
        ensures crash { LeavesStep K.Keeper self.old.keeper (QueueRun moment) self.new.keeper }
        ensures late { latest < moment → result ≡ Err Fault.Moment }
        ensures refused { IfErr result (λ e. (latest < moment) ⊎ IsKeepers K.may_fail (moment ≤ latest) e) }
    {
        if moment > LATEST {
            return Err(Fault::Moment);
        }
        let uploads = self.keeper.complete_uploads(alloc, moment)?;
        if uploads.is_empty() {
            return Ok(Report {
                lines: Vec::new(alloc),
            });
        }
        let mut shelves = self.keeper.shelves(alloc)?;
        let steps = judged_steps(alloc, self.keeper.config(), &mut shelves, &uploads)?;
        let lines = report_lines(alloc, &steps)?;
        self.amend(alloc, Listed::from_vec(steps), shelves, moment)?;
        Ok(Report { lines })
    }

    /// Copies the items of a source package that the suite `from` shows and the suite `to` keeps, at a moment, in seconds since
    /// 1970-01-01 00:00:00 UTC, and says how many items of `to` are new. Suites are named by their codenames. It is refused, with the
    /// lowest fault that applies, for a moment after 2099, a codename that no suite has, a copy from a suite to itself, and a source
    /// package of which `from` shows nothing.
    pub fn copy(
        &mut self,
        alloc: Global,
        from: &str,
        to: &str,
        source: &str,
        moment: u64,
    ) -> Result<u64, Fault>
        ensures lasts { Lasts K.Keeper self.old.keeper self.new.keeper }
        // After a success the keeper is open.
        ensures served { IsServed K.Keeper self.new.keeper (counted result) }
        ensures step { Does K.Keeper self.old.keeper (Copying from.now to.now source.now moment) (counted result) self.new.keeper }
        // A refusal leaves the book as it was, whatever the history.
        ensures err { OnErr result (IsUndone K.Keeper self.old.keeper self.new.keeper) }
        // A crash leaves what it would have left before, or all that the call does.
        ensures crash { LeavesStep K.Keeper self.old.keeper (Copying from.now to.now source.now moment) self.new.keeper }
        ensures done { K.is_clean self.new.keeper → IfOk result (λ _. copy_fault (K.book self.old.keeper) from.now to.now source.now moment ≡ None) }
        ensures late { latest < moment → result ≡ Err Fault.Moment }
        // The fault is the one by the moment, the configuration and what is shown, or else one of the keeper's own.
        ensures refused { K.is_clean self.new.keeper → IfErr result (λ e. (copy_fault (K.book self.old.keeper) from.now to.now source.now moment ≡ Some e)
            ⊎ IsKeepers K.may_fail (is_free_copy (K.book self.old.keeper).config from.now to.now moment ≡ true) e) }
    {
        if moment > LATEST {
            return Err(Fault::Moment);
        }
        let (from, to) = two_suites(self.keeper.config(), from, to)?;
        let mut shelves = self.keeper.shelves(alloc)?;
        let plan = copy_plan(alloc, self.keeper.config(), &shelves, from, to, source)?;
        let items = plan.put.as_slice().len() as u64;
        let steps = only_step(alloc, &mut shelves, plan)?;
        self.amend(alloc, steps, shelves, moment)?;
        Ok(items)
    }

    /// Copies several source packages in one change: for each of them it does what `copy` does, one after the other, at a moment, in
    /// seconds since 1970-01-01 00:00:00 UTC. They are the given ones, or else all of which the suite `from` shows an item, each once, in
    /// the order of the bytes of their names. It says for each how many items of `to` are new, or `None` if `from` shows nothing of it;
    /// the others are copied all the same. It is refused, with the lowest fault that applies, for a moment after 2099, a codename that no
    /// suite has, and a copy from a suite to itself.
    pub fn promote(
        &mut self,
        alloc: Global,
        from: &str,
        to: &str,
        sources: &Option<Vec<String>>,
        moment: u64,
    ) -> Result<Promotion, Fault>
        ensures lasts { Lasts K.Keeper self.old.keeper self.new.keeper }
        // After a success the keeper is open.
        ensures served { IsServed K.Keeper self.new.keeper (promoted result) }
        ensures step { Does K.Keeper self.old.keeper (Promoting from.now to.now (names_given sources.now) moment) (promoted result) self.new.keeper }
        // A refusal leaves the book as it was, whatever the history.
        ensures err { OnErr result (IsUndone K.Keeper self.old.keeper self.new.keeper) }
        // A crash leaves what it would have left before, or all that the call does.
        ensures crash { LeavesStep K.Keeper self.old.keeper (Promoting from.now to.now (names_given sources.now) moment) self.new.keeper }
        ensures lines { IfOk result (λ promotion. lines_of promotion.report ≡ map copy_line (copies_of promotion)) }
        ensures done { IfOk result (λ _. promotion_fault (K.book self.old.keeper).config from.now to.now moment ≡ None) }
        ensures late { latest < moment → result ≡ Err Fault.Moment }
        // The fault is the one by the moment and the configuration, or else one of the keeper's own.
        ensures refused { IfErr result (IsPromotionFault K.may_fail (K.book self.old.keeper).config from.now to.now moment) }
    {
        if moment > LATEST {
            return Err(Fault::Moment);
        }
        let (from, to) = two_suites(self.keeper.config(), from, to)?;
        let mut shelves = self.keeper.shelves(alloc)?;
        let sources = sources_of(alloc, &shelves, from, sources)?;
        let groups = groups_of(alloc, &shelves, from)?;
        let Copied { made, copies } = copied_steps(
            alloc,
            self.keeper.config(),
            &mut shelves,
            from,
            to,
            &sources,
            &groups,
        )?;
        let lines = copy_lines(alloc, &copies)?;
        self.amend(alloc, Listed::from_vec(made), shelves, moment)?;
        Ok(Promotion {
            copies,
            report: Report { lines },
        })
    }

    /// Removes from a suite, by its codename, all items of a package's name, both sources and packages, at a moment, in seconds since
    /// 1970-01-01 00:00:00 UTC, and says how many the suite showed. No older version comes back. It is refused, with the lowest fault
    /// that applies, for a moment after 2099, a codename that no suite has, and a name of which the suite shows nothing.
    pub fn remove(
        &mut self,
        alloc: Global,
        suite: &str,
        name: &str,
        moment: u64,
    ) -> Result<u64, Fault>
        ensures lasts { Lasts K.Keeper self.old.keeper self.new.keeper }
        // After a success the keeper is open.
        ensures served { IsServed K.Keeper self.new.keeper (counted result) }
        ensures step { Does K.Keeper self.old.keeper (Removing suite.now name.now moment) (counted result) self.new.keeper }
        // A refusal leaves the book as it was, whatever the history.
        ensures err { OnErr result (IsUndone K.Keeper self.old.keeper self.new.keeper) }
        // A crash leaves what it would have left before, or all that the call does.
        ensures crash { LeavesStep K.Keeper self.old.keeper (Removing suite.now name.now moment) self.new.keeper }
        ensures done { K.is_clean self.new.keeper → IfOk result (λ _. removal_fault (K.book self.old.keeper) suite.now name.now moment ≡ None) }
        ensures late { latest < moment → result ≡ Err Fault.Moment }
        // The fault is the one by the moment, the configuration and what is shown, or else one of the keeper's own.
        ensures refused { K.is_clean self.new.keeper → IfErr result (λ e. (removal_fault (K.book self.old.keeper) suite.now name.now moment ≡ Some e)
            ⊎ IsKeepers K.may_fail (is_free_removal (K.book self.old.keeper).config suite.now moment ≡ true) e) }
    {
        if moment > LATEST {
            return Err(Fault::Moment);
        }
        let place = suite_position(self.keeper.config(), suite)?;
        let mut shelves = self.keeper.shelves(alloc)?;
        let plan = removal_plan(alloc, self.keeper.config(), &shelves, place, name)?;
        let count = plan.dropped.as_slice().len() as u64;
        let steps = only_step(alloc, &mut shelves, plan)?;
        self.amend(alloc, steps, shelves, moment)?;
        Ok(count)
    }

    /// Gives the archive another configuration from a moment on, in seconds since 1970-01-01 00:00:00 UTC. What has arrived, was judged
    /// and is shown stays; suites are named by their codenames. The indices are those of the new configuration. The moment is the date of
    /// each suite that is new, and of each suite whose Release would be another text even with the date that it has. It is refused with
    /// `KeepFault::Configuration` if something that is shown would not be kept: its suite is missing, or does not keep its architecture
    /// or its component.
    pub fn configure(&mut self, alloc: Global, config: Config, moment: u64) -> Result<(), KeepFault>
        requires in_time { moment ≤ latest }
        ensures endures { Endures K.Keeper self.old.keeper self.new.keeper }
        // After a success the keeper is open.
        ensures served { K.is_clean self.new.keeper → OnOk result (K.is_open self.new.keeper) }
        ensures step { Configures K.Keeper self.old.keeper config moment result self.new.keeper }
        // The book is the configured one, whatever the history.
        ensures book { K.is_clean self.new.keeper → OnOk result (K.book self.new.keeper ≡ configured config moment (K.book self.old.keeper)) }
        ensures kept { K.is_clean self.new.keeper → OnOk result (keeps_shown config (K.book self.old.keeper) ≡ true) }
        ensures err { OnErr result (IsUndone K.Keeper self.old.keeper self.new.keeper) }
        ensures differs { K.is_clean self.new.keeper → IfErr result (λ e. e ≡ Configuration → keeps_shown config (K.book self.old.keeper) ≡ false) }
        ensures cause { IfErr result (λ e. (e ≡ Configuration) ⊎ MayAnswer K.may_fail e) }
        // A crash leaves what it would have left before, or the configured book.
        ensures crash { LeavesConfigured K.Keeper self.old.keeper config moment self.new.keeper }
    {
        // For the prover alone: the configuration is what its text spells, so no two suites have one codename.
        let _ = self.keeper.config().text();
        let next = configured(alloc, &mut self.keeper, config, moment)?;
        self.keeper.configure(alloc, next)?;
        self.last = LastTexts::new(alloc);
        Ok(())
    }

    /// The index text or the file of the pool at a path without a leading slash.
    pub fn fetch(&mut self, alloc: Global, path: &str) -> Result<Option<Vec<u8>>, Fault>
        // The book stays as it was, and a crash leaves what it would have left before.
        ensures reads { Reads K.Keeper self.old.keeper self.new.keeper }
        ensures served { IsServed K.Keeper self.new.keeper (found result) }
        ensures step { Does K.Keeper self.old.keeper (Lookup path.now) (found result) self.new.keeper }
        ensures refused { IfErr result (IsKeepers K.may_fail ⊤) }
    {
        match self.keeper.file(alloc, path)? {
            Some(body) => Ok(Some(body)),
            None => Ok(self.keeper.text(alloc, path)?),
        }
    }

    /// The piece at a place, from 0, of the file of the pool at a path without a leading slash, and how many bytes the whole file has. Each
    /// piece but the last has 65536 bytes, and after the last piece none has any. So a file is read without being held whole.
    pub fn fetch_piece(
        &mut self,
        alloc: Global,
        path: &str,
        number: u32,
    ) -> Result<Option<FilePiece>, Fault>
        // The book stays as it was, and a crash leaves what it would have left before.
        ensures reads { Reads K.Keeper self.old.keeper self.new.keeper }
        ensures served { K.is_clean self.new.keeper → OnOk result (K.is_open self.new.keeper) }
        ensures piece { K.is_clean self.new.keeper → IfOk result (λ piece.
            option_map piece_value piece ≡ option_map (piece_of_body number) ((K.book self.old.keeper).files path.now)) }
        ensures refused { IfErr result (IsKeepers K.may_fail ⊤) }
    {
        Ok(self.keeper.file_piece(alloc, path, number)?)
    }

    /// The piece at a place of the file of the pool at a path, if the file has this size, in bytes, and the piece belongs at this place of
    /// such a file: `None` if there is no file, if the piece says another size, or if it has fewer or more bytes.
    pub fn fetch_next(
        &mut self,
        alloc: Global,
        path: &str,
        number: u32,
        size: u64,
    ) -> Result<Option<FilePiece>, Fault>
        // The book stays as it was, and a crash leaves what it would have left before.
        ensures reads { Reads K.Keeper self.old.keeper self.new.keeper }
        ensures served { K.is_clean self.new.keeper → OnOk result (K.is_open self.new.keeper) }
        ensures piece { K.is_clean self.new.keeper → IfOk result (λ found. IfSome found (λ piece.
            option_map (piece_of_body number) ((K.book self.old.keeper).files path.now) ≡ Some (piece_value piece))) }
        ensures fits { IfOk result (λ found. IfSome found (λ piece. is_piece_at size number (piece_value piece) ≡ true)) }
        ensures refused { IfErr result (IsKeepers K.may_fail ⊤) }
    {
        match self.fetch_piece(alloc, path, number)? {
            Some(piece) if is_piece_at(&piece, size, number) => Ok(Some(piece)),
            _ => Ok(None),
        }
    }

    /// The uploads without a verdict whose .changes counts at a moment, in seconds since 1970-01-01 00:00:00 UTC. Each has a line: the
    /// number of listed files that do not count, and the name of the .changes. It is refused for a moment after 2099.
    pub fn waiting(&mut self, alloc: Global, moment: u64) -> Result<Report, Fault>
        // The book stays as it was, and a crash leaves what it would have left before.
        ensures reads { Reads K.Keeper self.old.keeper self.new.keeper }
        ensures served { IsServed K.Keeper self.new.keeper (reported result) }
        ensures step { Does K.Keeper self.old.keeper (WaitingList moment) (reported result) self.new.keeper }
        ensures late { latest < moment → result ≡ Err Fault.Moment }
        ensures refused { IfErr result (λ e. (latest < moment) ⊎ IsKeepers K.may_fail (moment ≤ latest) e) }
    {
        if moment > LATEST {
            return Err(Fault::Moment);
        }
        let uploads = self.keeper.waiting(alloc, moment)?;
        Ok(Report {
            lines: waiting_lines(alloc, &uploads)?,
        })
    }

    /// Takes away each arrival that no longer counts at a moment, in seconds since 1970-01-01 00:00:00 UTC, and says how many there were.
    /// What was judged stays judged, and all that the suites show stays. It is refused for a moment after 2099.
    pub fn clean(&mut self, alloc: Global, moment: u64) -> Result<u64, Fault>
        ensures lasts { Lasts K.Keeper self.old.keeper self.new.keeper }
        // After a success the keeper is open.
        ensures served { IsServed K.Keeper self.new.keeper (counted result) }
        ensures step { Does K.Keeper self.old.keeper (Cleaning moment) (counted result) self.new.keeper }
        // A refusal leaves the book as it was, whatever the history.
        ensures err { OnErr result (IsUndone K.Keeper self.old.keeper self.new.keeper) }
        // A crash leaves what it would have left before, or all that the call does.
        ensures crash { LeavesStep K.Keeper self.old.keeper (Cleaning moment) self.new.keeper }
        ensures late { latest < moment → result ≡ Err Fault.Moment }
        ensures refused { IfErr result (λ e. (latest < moment) ⊎ IsKeepers K.may_fail (moment ≤ latest) e) }
    {
        if moment > LATEST {
            return Err(Fault::Moment);
        }
        Ok(self.keeper.clean(alloc, moment)?)
    }

    /// All lines that runs have reported, in the order in which the uploads were judged.
    pub fn verdicts(&mut self, alloc: Global) -> Result<Report, Fault>
        // The book stays as it was, and a crash leaves what it would have left before.
        ensures reads { Reads K.Keeper self.old.keeper self.new.keeper }
        ensures served { IsServed K.Keeper self.new.keeper (reported result) }
        ensures step { Does K.Keeper self.old.keeper VerdictList (reported result) self.new.keeper }
        ensures refused { IfErr result (IsKeepers K.may_fail ⊤) }
    {
        let judged = self.keeper.verdicts(alloc)?;
        Ok(Report {
            lines: verdict_lines(alloc, &judged)?,
        })
    }
}
