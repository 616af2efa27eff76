//! A keeper in memory, which keeps everything as lists and goes over them at each call.
//!
//! Index texts follow from the book, and are no field of it. Files are a field, since bodies outlive arrivals: a cleaning leaves the pool.

ghost use Rattle.std.specs.Prelude.{◌≤◌, All, IfOk};
ghost use Rattle.indices.specs.Calendar.{latest};

use crate::arrival::{has_arrival, has_current, mark_all, remove_ended};
use crate::arrived::{arrived_body, arrived_files};
use crate::pool::{PoolBody, body_at_path, pool_bodies};
use crate::shelves::shelves_after;
use crate::uploads::{complete_uploads, waiting_uploads};
use book::{
    Arrival, ArrivedFile, Body, Change, Configured, Counting, Judgement, KeepFault, Keeper, LATEST,
    Waiting, append_judgements, copied_judgements, dates_after, print_of_text, room_for_judgements,
};
use para::Text;
use rules::Config;
use std::alloc::Global;
use suites::{Shelves, Upload};
use sums::{Print, print_of};
use texts::index_text;

/// A plain keeper. It refuses a call for want of memory alone.
#[derive(Drop)]
pub struct PlainKeeper {
    config: Config,
    arrivals: Vec<Arrival>,
    judged: Vec<Judgement>,
    shelves: Shelves,
    files: Vec<PoolBody>,
    /// For each suite the moment at which what it shows last changed.
    dates: Vec<u64>,
    /// The bytes so far of the body that is coming, if one was begun.
    coming: Option<Vec<u8>>,
    ghost in_range: { ∥ All (λ date. date ≤ latest) dates.items ∥₁ },
}

impl PlainKeeper {
    ghost use Rattle.std.specs.Prelude.{◌≡◌, IfErr};
    ghost use Rattle.book.specs.Book.{fresh_book};
    ghost use Rattle.book.specs.declared.fault.KeepFault.TheVariants.{OutOfMemory};

    /// An archive of this configuration in which nothing is yet, made at the moment, in seconds since 1970-01-01
    /// 00:00:00 UTC.
    pub fn new(alloc: Global, config: Config, moment: u64) -> Result<PlainKeeper, KeepFault>
        requires { moment ≤ LATEST }
        ensures clean { IfOk result (λ keeper. ⟦<PlainKeeper as Keeper>⟧.is_clean keeper) }
        ensures open { IfOk result (λ keeper. ⟦<PlainKeeper as Keeper>⟧.is_open keeper) }
        ensures made { IfOk result (λ keeper. ⟦<PlainKeeper as Keeper>⟧.book keeper ≡ fresh_book config moment) }
        ensures refused { IfErr result (λ e. e ≡ OutOfMemory) }
    {
        let dates = vec![in alloc; moment; config.suites().len()]?;
        Ok(PlainKeeper {
            config,
            arrivals: Vec::new(alloc),
            judged: Vec::new(alloc),
            shelves: Shelves::new(alloc),
            files: Vec::new(alloc),
            dates,
            coming: None,
        })
    }
}

impl Keeper for PlainKeeper {
    ghost use Rattle.std.specs.Prelude.{⊤, false};
    ghost use Rattle.keep.specs.Plain.{plain_book, plain_coming};

    ghost is_clean = { λ _. ⊤ };

    ghost is_open = { λ _. ⊤ };

    ghost faults = { λ _. 0 };

    ghost book = { plain_book };

    ghost coming = { plain_coming };

    ghost may_fail = { false };

    /// A crash leaves nothing of what is in memory.
    ghost may_leave = { λ _ _. ⊥ };

    #[tactic(auto, unfolding(crate::specs::Plain::plain_book))]
    fn config(&self) -> &Config {
        &self.config
    }

    #[tactic(auto, unfolding(crate::specs::Plain::plain_book))]
    fn dates(&self) -> &[u64] {
        self.dates.as_slice()
    }

    #[tactic(auto, unfolding(crate::specs::Plain::plain_book))]
    fn begin(&mut self, alloc: Global) -> Result<(), KeepFault> {
        self.coming = Some(Vec::new(alloc));
        Ok(())
    }

    #[tactic(auto, unfolding(crate::specs::Plain::plain_book))]
    fn piece(&mut self, alloc: Global, bytes: &[u8]) -> Result<(), KeepFault> {
        let _ = alloc;
        let Some(mut body) = self.coming.take() else {
            unreachable!()
        };
        body.extend_from_slice(bytes)?;
        self.coming = Some(body);
        Ok(())
    }

    #[tactic(auto, unfolding(crate::specs::Plain::plain_book))]
    fn finish(&mut self, alloc: Global, name: &str, moment: u64) -> Result<bool, KeepFault> {
        let Some(body) = self.coming.take() else {
            unreachable!()
        };
        let print = print_of(&body);
        let counting = Counting::new(&self.config, moment);
        let is_new = !has_current(&self.arrivals, counting, name, print);
        if has_arrival(&self.arrivals, name, print) {
            mark_all(&mut self.arrivals, name, print, moment);
            return Ok(is_new);
        }
        self.arrivals.push(Arrival {
            name: Text::new(alloc, name)?,
            body: Body::from_vec(body, print),
            moment,
        })?;
        Ok(is_new)
    }

    #[tactic(auto, unfolding(crate::specs::Plain::plain_book))]
    fn abandon(&mut self) -> Result<(), KeepFault> {
        self.coming = None;
        Ok(())
    }

    #[tactic(auto, unfolding(crate::specs::Plain::plain_book, book::specs::Book::due, book::specs::Book::unjudged))]
    fn complete_uploads(&mut self, alloc: Global, moment: u64) -> Result<Vec<Upload>, KeepFault> {
        let counting = Counting::new(&self.config, moment);
        Ok(complete_uploads(alloc, &self.arrivals, counting, &self.judged)?)
    }

    #[tactic(auto, unfolding(crate::specs::Plain::plain_book))]
    fn shelves(&mut self, alloc: Global) -> Result<Shelves, KeepFault> {
        Ok(self.shelves.try_clone(alloc)?)
    }

    #[tactic(auto, unfolding(crate::specs::Plain::plain_book))]
    fn apply(&mut self, alloc: Global, change: &Change) -> Result<(), KeepFault> {
        let steps = change.steps.as_slice();
        let shelves = shelves_after(alloc, &self.shelves, steps)?;
        let dates = dates_after(alloc, &self.dates, steps, change.moment)?;
        let files = pool_bodies(alloc, &self.arrivals, &self.files, &shelves)?;
        let judged = room_for_judgements(alloc, &mut self.judged, steps)?;
        append_judgements(&mut self.judged, judged);
        self.shelves = shelves;
        self.dates = dates;
        self.files = files;
        Ok(())
    }

    #[tactic(auto, unfolding(crate::specs::Plain::plain_book))]
    fn hold(&mut self, shelves: Shelves) {
        // The shelves that are kept are these.
        let _ = shelves;
    }

    #[tactic(auto, unfolding(crate::specs::Plain::plain_book))]
    fn clean(&mut self, alloc: Global, moment: u64) -> Result<u64, KeepFault> {
        let _ = alloc;
        let counting = Counting::new(&self.config, moment);
        Ok(remove_ended(&mut self.arrivals, counting))
    }

    #[tactic(auto, unfolding(crate::specs::Plain::plain_book))]
    fn configure(&mut self, alloc: Global, next: Configured) -> Result<(), KeepFault> {
        let _ = alloc;
        let Configured {
            config,
            shelves,
            dates,
        } = next;
        self.config = config;
        self.shelves = shelves;
        self.dates = dates;
        Ok(())
    }

    #[tactic(auto, unfolding(crate::specs::Plain::plain_book))]
    fn file(&mut self, alloc: Global, path: &str) -> Result<Option<Vec<u8>>, KeepFault> {
        Ok(body_at_path(alloc, &self.files, path)?)
    }

    #[tactic(auto, unfolding(crate::specs::Plain::plain_book))]
    fn text(&mut self, alloc: Global, path: &str) -> Result<Option<Vec<u8>>, KeepFault> {
        Ok(index_text(alloc, &self.config, &self.shelves, &self.dates, path)?)
    }

    #[tactic(auto, unfolding(crate::specs::Plain::plain_book))]
    fn text_print(&mut self, alloc: Global, path: &str) -> Result<Option<Print>, KeepFault> {
        let text = index_text(alloc, &self.config, &self.shelves, &self.dates, path)?;
        Ok(print_of_text(&text))
    }

    #[tactic(auto, unfolding(crate::specs::Plain::plain_book, book::specs::Book::waiting_list, book::specs::Book::unjudged))]
    fn waiting(&mut self, alloc: Global, moment: u64) -> Result<Vec<Waiting>, KeepFault> {
        let counting = Counting::new(&self.config, moment);
        Ok(waiting_uploads(alloc, &self.arrivals, counting, &self.judged)?)
    }

    #[tactic(auto, unfolding(crate::specs::Plain::plain_book))]
    fn arrivals(&mut self, alloc: Global) -> Result<Vec<ArrivedFile>, KeepFault> {
        Ok(arrived_files(alloc, &self.arrivals)?)
    }

    #[tactic(auto, unfolding(crate::specs::Plain::plain_book))]
    fn arrived_body(
        &mut self,
        alloc: Global,
        name: &str,
        print: &Print,
    ) -> Result<Option<Vec<u8>>, KeepFault> {
        Ok(arrived_body(alloc, &self.arrivals, name, print)?)
    }

    #[tactic(auto, unfolding(crate::specs::Plain::plain_book))]
    fn verdicts(&mut self, alloc: Global) -> Result<Vec<Judgement>, KeepFault> {
        Ok(copied_judgements(alloc, &self.judged)?)
    }

    ghost settled = { λ k left clean up none. absurd none };
}
