//! The keeper over the tables of a database.
//!
//! Configuration, judgements and dates are held in memory beside the tables, since a program reads them at each call.
//!
//! If a transaction was begun on a connection, making and opening answer K4 and hand the connection back as it was. So they ask nothing of
//! a caller: a clause that asks for it would have to be met by each.

ghost use Rattle.std.specs.Prelude.{◌≡◌, ◌≤◌, [], All, false, IsTrue};
ghost use Rattle.sqlite.specs.Held.{state};
ghost use Rattle.sqlite.specs.State.{HasCleanDisk};
ghost use Rattle.tables.specs.Rows.{tables_in};
ghost use Rattle.tables_bodies.specs.UnderWay.{IsUnderWay};
ghost use Rattle.tables_meaning.specs.Archives.{KeepsArchive};
ghost use Rattle.tables_meaning.specs.Coming.{HasComing};
ghost use Rattle.tables_meaning.specs.Shown.{shown_in};
ghost use Rattle.keep_tables.specs.AtHand.{AreAtHand, AreKnown};
ghost use Rattle.tables_meaning.specs.Calls.{WhileOpen};
ghost use Rattle.keep_tables.specs.Calls.{GivesBack, RefusesOnlyTaken, RefusesTaken};

use crate::changes::make_change;
use crate::cleanings::clean_up;
use crate::coming::{
    begun, clear, deliver_at_once, finish_delivery, forget_body, forget_if, is_coming,
    is_one_piece, number_of, stop, take_piece,
};
use crate::configurations::take_configuration;
use crate::reads::{
    read_arrivals, read_arrived, read_due, read_file, read_file_piece, read_kept, read_nothing,
    read_print, read_text, read_waiting, show,
};
use crate::text_prints::{known_print, note_print, renew_prints};
use book::{
    ArrivedFile, Change, Configured, FilePiece, IndexText, Judgement, KeepFault, Keeper, LATEST,
    PIECE_SIZE, Waiting, append_judgements, copied_judgements, dates_after, room_for_judgements,
};
use rules::Config;
use sqlite::{Alter, Connection};
use std::alloc::Global;
use suites::{Shelves, Upload};
use sums::{Print, Printer, print_of};
use tables_audit::TextPrint;
use tables_bodies::{Begun, Finished, OnePiece, some_take_files};
use tables_changes::{create, is_without_tables};
use tables_counting::span_of;
use tables_meaning::fault_of;

/// A keeper over the tables of the database of its connection. The configuration, the judgements and the dates are held
/// beside the tables, and between calls what the suites show and the prints of index texts. All else is read from the
/// tables.
#[derive(Drop)]
pub struct TableKeeper<S: Alter + Drop> {
    conn: Connection<S>,
    config: Config,
    judged: Vec<Judgement>,
    /// For each suite the moment at which what it shows last changed.
    dates: Vec<u64>,
    /// The body that was begun last, until it has arrived or its rows are gone.
    begun: Option<Begun>,
    /// What the suites show, if a call left it here. The next call that asks for it takes it out.
    spare: Option<Shelves>,
    /// The prints of index texts that are known.
    prints: Vec<TextPrint>,
    ghost idle: { conn.in_transaction ≡ false },
    ghost in_range: { ∥ All (λ date. date ≤ 4_102_444_799) dates.items ∥₁ },
    ghost kept: { HasCleanDisk (state S.Store conn) → IsTrue (state S.Store conn).is_open
        → ∥ KeepsArchive (state S.Store conn).committed config judged.items (shown_in config.suites (tables_in (state S.Store conn).committed)) dates.items ∥₁ },
    ghost under_way: { HasCleanDisk (state S.Store conn) → IsTrue (state S.Store conn).is_open → ∥ IsUnderWay (tables_in (state S.Store conn).committed) begun ∥₁ },
    ghost at_hand: { HasCleanDisk (state S.Store conn) → IsTrue (state S.Store conn).is_open → ∥ AreAtHand config (state S.Store conn).committed spare ∥₁ },
    ghost known: { HasCleanDisk (state S.Store conn) → IsTrue (state S.Store conn).is_open
        → ∥ AreKnown config (shown_in config.suites (tables_in (state S.Store conn).committed)) dates.items prints.items ∥₁ },
}

impl<S: Alter + Drop> TableKeeper<S> {
    ghost use Rattle.std.specs.Prelude.{true, IfOk, IfErr};
    ghost use Rattle.sqlite.specs.State.{Survives};
    ghost use Rattle.book.specs.Book.{fresh_book};
    ghost use Rattle.tables_meaning.specs.Founding.{MayFound, founded};

    /// A new archive of the configuration, in a database that has no table, no index and no view, made at the moment, in seconds
    /// since 1970-01-01 00:00:00 UTC. A fault gives the connection back, and then what was committed is as before. The fault is
    /// `KeepFault::NoArchive` exactly if the database has an object already or a transaction is open. A crash leaves what was
    /// there before or the whole archive.
    #[tactic(auto, unfolding(tables_meaning::specs::Kept::book_in))]
    pub fn create(
        alloc: Global,
        mut connection: Connection<S>,
        config: Config,
        moment: u64,
    ) -> Result<TableKeeper<S>, (Connection<S>, KeepFault)>
        requires { moment ≤ LATEST }
        ensures made { IfOk result (λ keeper. HasCleanDisk (state S.Store keeper.conn) → ⟦<TableKeeper<S> as Keeper>⟧.is_open keeper
            × (⟦<TableKeeper<S> as Keeper>⟧.book keeper ≡ fresh_book config moment)) }
        ensures taken { RefusesTaken S.Store connection result }
        ensures free { RefusesOnlyTaken S.Store connection result }
        ensures undone { GivesBack S.Store connection result }
        ensures crash { IfOk result (λ keeper. Survives (state S.Store connection) (state S.Store keeper.conn) (MayFound (state S.Store connection) (founded config moment))) }
        ensures crash_undone { IfErr result (λ e. Survives (state S.Store connection) (state S.Store e.0) (MayFound (state S.Store connection) (founded config moment))) }
    {
        let free = connection.is_autocommit();
        let empty = is_without_tables(&connection);
        if !free || !empty {
            return Err((connection, KeepFault::NoArchive));
        }
        let Ok(dates) = vec![in alloc; moment; config.suites().len()] else {
            return Err((connection, KeepFault::OutOfMemory));
        };
        // For the prover alone: the configuration is what its text spells.
        let _ = config.text();
        match create(alloc, &mut connection, &config, moment) {
            Ok(()) => Ok(TableKeeper {
                conn: connection,
                config,
                judged: Vec::new(alloc),
                dates,
                begun: None,
                spare: None,
                prints: Vec::new(alloc),
            }),
            Err(error) => Err((connection, fault_of(error))),
        }
    }

    /// The keeper over a database whose archive is of this configuration, with these judged uploads in order, and for each suite
    /// in the order of the configuration the moment at which what it shows last changed. Each of its bodies is whole. What the
    /// suites show may be handed over too, and prints of index texts.
    pub fn over(
        connection: Connection<S>,
        config: Config,
        judged: Vec<Judgement>,
        dates: Vec<u64>,
        spare: Option<Shelves>,
        prints: Vec<TextPrint>,
    ) -> TableKeeper<S>
        requires idle { connection.in_transaction ≡ false }
        requires in_range { ∥ All (λ date. date ≤ LATEST) dates.items ∥₁ }
        requires kept { WhileOpen S.Store connection (λ now. ∥ KeepsArchive now.committed config judged.items (shown_in config.suites (tables_in now.committed)) dates.items ∥₁) }
        requires whole { WhileOpen S.Store connection (λ now. HasComing (tables_in now.committed) []) }
        requires shown { WhileOpen S.Store connection (λ now. AreAtHand config now.committed spare) }
        requires known { WhileOpen S.Store connection (λ now. ∥ AreKnown config (shown_in config.suites (tables_in now.committed)) dates.items prints.items ∥₁) }
        ensures { (result.conn ≡ connection) × (result.config ≡ config) × (result.judged ≡ judged) × (result.dates ≡ dates) }
    {
        TableKeeper {
            conn: connection,
            config,
            judged,
            dates,
            begun: None,
            spare,
            prints,
        }
    }

    /// The connection. Its database keeps the book.
    pub fn into_connection(self) -> Connection<S>
        ensures { result ≡ self.conn }
    {
        let TableKeeper {
            conn,
            config: _,
            judged: _,
            dates: _,
            begun: _,
            spare: _,
            prints: _,
        } = self;
        conn
    }
}

impl<S: Alter + Drop> Keeper for TableKeeper<S> {
    ghost use Rattle.std.specs.Prelude.{true};
    ghost use Rattle.sqlite.specs.Tree.{Trees};
    ghost use Rattle.tables_bodies.specs.UnderWay.{coming_in};
    ghost use Rattle.tables_meaning.specs.Archives.{KeepsLeft, book_in_database};
    ghost use Rattle.tables_meaning.specs.KeeperLemmas.{left_is};

    ghost is_clean = { λ k. HasCleanDisk (state S.Store k.conn) };

    ghost is_open = { λ k. IsTrue (state S.Store k.conn).is_open };

    ghost faults = { λ k. (state S.Store k.conn).faults };

    ghost book = { λ k. book_in_database (state S.Store k.conn).committed k.config k.judged.items (shown_in k.config.suites (tables_in (state S.Store k.conn).committed)) k.dates.items };

    ghost coming = { λ k. coming_in (tables_in (state S.Store k.conn).committed) k.begun };

    ghost may_fail = { true };

    /// A crash leaves trees that an opening may find, with a book in them or without one.
    ghost may_leave = { λ k left. (trees : Trees) × (state S.Store k.conn).may_leave trees × KeepsLeft trees left };

    #[tactic(auto, unfolding(tables_meaning::specs::Kept::book_in))]
    fn config(&self) -> &Config {
        &self.config
    }

    #[tactic(auto, unfolding(tables_meaning::specs::Kept::book_in))]
    fn dates(&self) -> &[u64] {
        self.dates.as_slice()
    }

    #[tactic(auto, unfolding(tables_meaning::specs::Kept::book_in))]
    fn begin(&mut self, alloc: Global) -> Result<(), KeepFault> {
        match clear(alloc, &mut self.conn, number_of(&self.begun)) {
            Ok(()) => {
                self.begun = Some(begun());
                Ok(())
            }
            Err(error) => {
                stop(&mut self.begun);
                Err(fault_of(error))
            }
        }
    }

    #[tactic(auto, unfolding(tables_meaning::specs::Kept::book_in))]
    fn piece(&mut self, alloc: Global, bytes: &[u8]) -> Result<(), KeepFault> {
        let _ = alloc;
        let Some(mut begun) = self.begun.take() else {
            return Err(KeepFault::Disk);
        };
        match take_piece(&mut self.conn, begun.body, begun.pieces, bytes) {
            Ok(id) => {
                begun.printer.update(bytes);
                self.begun = Some(Begun {
                    body: Some(id),
                    pieces: begun.pieces.wrapping_add(1),
                    printer: begun.printer,
                    is_coming: true,
                });
                Ok(())
            }
            Err(error) => {
                begun.is_coming = false;
                self.begun = Some(begun);
                Err(fault_of(error))
            }
        }
    }

    #[tactic(auto, unfolding(tables_meaning::specs::Kept::book_in))]
    fn finish(&mut self, alloc: Global, name: &str, moment: u64) -> Result<bool, KeepFault> {
        let Some(begun) = self.begun.take() else {
            return Err(KeepFault::Disk);
        };
        let Begun {
            body,
            pieces,
            printer,
            is_coming: _,
        } = begun;
        let print = printer.finish();
        let finished = Finished {
            name,
            body,
            pieces,
            print,
            span: span_of(&self.config),
            moment,
        };
        match finish_delivery(alloc, &mut self.conn, &finished) {
            Ok(new) => Ok(new),
            Err(error) => {
                self.begun = Some(Begun {
                    body,
                    pieces,
                    printer: Printer::new(),
                    is_coming: false,
                });
                Err(fault_of(error))
            }
        }
    }

    #[tactic(auto, unfolding(tables_meaning::specs::Kept::book_in))]
    fn abandon(&mut self) -> Result<(), KeepFault> {
        if !is_coming(&self.begun) {
            return Ok(());
        }
        let Some(id) = number_of(&self.begun) else {
            self.begun = None;
            return Ok(());
        };
        match forget_body(&mut self.conn, id) {
            Ok(()) => {
                self.begun = None;
                Ok(())
            }
            Err(error) => {
                stop(&mut self.begun);
                Err(fault_of(error))
            }
        }
    }

    /// A body of one piece arrives in one transaction, if no row of another body is left.
    #[tactic(auto, unfolding(tables_meaning::specs::Kept::book_in))]
    fn arrive(
        &mut self,
        alloc: Global,
        name: &str,
        body: &[u8],
        moment: u64,
    ) -> Result<bool, KeepFault> {
        if is_one_piece(&self.begun, body) {
            let file = OnePiece {
                name,
                bytes: body,
                print: print_of(body),
                span: span_of(&self.config),
                moment,
            };
            return match deliver_at_once(alloc, &mut self.conn, &file) {
                Ok(new) => {
                    self.begun = None;
                    Ok(new)
                }
                Err(error) => {
                    stop(&mut self.begun);
                    Err(fault_of(error))
                }
            };
        }
        self.begin(alloc)?;
        let mut rest = body;
        while !rest.is_empty() {
            let (piece, more) = rest.split_at(rest.len().min(PIECE_SIZE));
            self.piece(alloc, piece)?;
            rest = more;
        }
        self.finish(alloc, name, moment)
    }

    #[tactic(auto, unfolding(tables_meaning::specs::Kept::book_in))]
    fn complete_uploads(&mut self, alloc: Global, moment: u64) -> Result<Vec<Upload>, KeepFault> {
        let seconds = span_of(&self.config);
        match read_due(alloc, &mut self.conn, seconds, moment) {
            Ok(uploads) => Ok(uploads),
            Err(error) => Err(fault_of(error)),
        }
    }

    #[tactic(auto, unfolding(tables_meaning::specs::Kept::book_in))]
    fn shelves(&mut self, alloc: Global) -> Result<Shelves, KeepFault> {
        let spare = self.spare.take();
        match show(alloc, &mut self.conn, &self.config, spare) {
            Ok(shelves) => Ok(shelves),
            Err(error) => Err(fault_of(error)),
        }
    }

    #[tactic(auto, unfolding(tables_meaning::specs::Kept::book_in))]
    fn apply(&mut self, alloc: Global, change: &Change) -> Result<(), KeepFault> {
        let steps = change.steps.as_slice();
        let dates = dates_after(alloc, &self.dates, steps, change.moment)?;
        let judged = room_for_judgements(alloc, &mut self.judged, steps)?;
        let whole = number_of(&self.begun).is_none();
        match make_change(
            alloc,
            &mut self.conn,
            &self.config,
            self.judged.len(),
            whole,
            change,
        ) {
            Ok(()) => {
                append_judgements(&mut self.judged, judged);
                self.dates = dates;
                self.spare = None;
                renew_prints(alloc, &mut self.prints, change.texts.as_slice());
                forget_if(&mut self.begun, some_take_files(steps));
                Ok(())
            }
            Err(error) => Err(fault_of(error)),
        }
    }

    #[tactic(auto, unfolding(tables_meaning::specs::Kept::book_in))]
    fn hold(&mut self, shelves: Shelves) {
        self.spare = Some(shelves);
    }

    #[tactic(auto, unfolding(tables_meaning::specs::Kept::book_in))]
    fn clean(&mut self, alloc: Global, moment: u64) -> Result<u64, KeepFault> {
        let seconds = span_of(&self.config);
        match clean_up(alloc, &mut self.conn, seconds, moment) {
            Ok(count) => {
                self.begun = None;
                Ok(count)
            }
            Err(error) => Err(fault_of(error)),
        }
    }

    #[tactic(auto, unfolding(tables_meaning::specs::Kept::book_in))]
    fn configure(&mut self, alloc: Global, next: Configured) -> Result<(), KeepFault> {
        let Configured {
            config,
            shelves,
            dates,
        } = next;
        match take_configuration(alloc, &mut self.conn, &config, &shelves, dates.as_slice()) {
            Ok(()) => {
                self.config = config;
                self.dates = dates;
                self.spare = Some(shelves);
                self.prints.clear();
                Ok(())
            }
            Err(error) => Err(fault_of(error)),
        }
    }

    #[tactic(auto, unfolding(tables_meaning::specs::Kept::book_in))]
    fn file(&mut self, alloc: Global, path: &str) -> Result<Option<Vec<u8>>, KeepFault> {
        match read_file(alloc, &mut self.conn, path) {
            Ok(file) => Ok(file),
            Err(error) => Err(fault_of(error)),
        }
    }

    /// A piece is read by itself, without the rest of the file.
    #[tactic(auto, unfolding(tables_meaning::specs::Kept::book_in))]
    fn file_piece(
        &mut self,
        alloc: Global,
        path: &str,
        number: u32,
    ) -> Result<Option<FilePiece>, KeepFault> {
        match read_file_piece(alloc, &mut self.conn, path, number) {
            Ok(piece) => Ok(piece),
            Err(error) => Err(fault_of(error)),
        }
    }

    #[tactic(auto, unfolding(tables_meaning::specs::Kept::book_in))]
    fn text(&mut self, alloc: Global, path: &str) -> Result<Option<Vec<u8>>, KeepFault> {
        match read_text(alloc, &mut self.conn, path) {
            Ok(text) => Ok(text),
            Err(error) => Err(fault_of(error)),
        }
    }

    #[tactic(auto, unfolding(tables_meaning::specs::Kept::book_in))]
    fn text_print(&mut self, alloc: Global, path: &str) -> Result<Option<Print>, KeepFault> {
        let known = known_print(&self.prints, path);
        match read_print(alloc, &mut self.conn, known, path) {
            Ok(print) => {
                note_print(alloc, &mut self.prints, path, print);
                Ok(print)
            }
            Err(error) => Err(fault_of(error)),
        }
    }

    #[tactic(auto, unfolding(tables_meaning::specs::Kept::book_in))]
    fn keeps_text(&mut self, alloc: Global, text: &IndexText) -> Result<bool, KeepFault> {
        let known = known_print(&self.prints, text.path.as_str());
        match read_kept(alloc, &mut self.conn, known, text) {
            Ok(kept) => Ok(kept),
            Err(error) => Err(fault_of(error)),
        }
    }

    #[tactic(auto, unfolding(tables_meaning::specs::Kept::book_in))]
    fn waiting(&mut self, alloc: Global, moment: u64) -> Result<Vec<Waiting>, KeepFault> {
        let seconds = span_of(&self.config);
        match read_waiting(alloc, &mut self.conn, seconds, moment) {
            Ok(waiting) => Ok(waiting),
            Err(error) => Err(fault_of(error)),
        }
    }

    #[tactic(auto, unfolding(tables_meaning::specs::Kept::book_in))]
    fn arrivals(&mut self, alloc: Global) -> Result<Vec<ArrivedFile>, KeepFault> {
        match read_arrivals(alloc, &mut self.conn) {
            Ok(files) => Ok(files),
            Err(error) => Err(fault_of(error)),
        }
    }

    #[tactic(auto, unfolding(tables_meaning::specs::Kept::book_in))]
    fn arrived_body(
        &mut self,
        alloc: Global,
        name: &str,
        print: &Print,
    ) -> Result<Option<Vec<u8>>, KeepFault> {
        match read_arrived(alloc, &mut self.conn, name, print) {
            Ok(body) => Ok(body),
            Err(error) => Err(fault_of(error)),
        }
    }

    #[tactic(auto, unfolding(tables_meaning::specs::Kept::book_in))]
    fn verdicts(&mut self, alloc: Global) -> Result<Vec<Judgement>, KeepFault> {
        match read_nothing(alloc, &mut self.conn) {
            Ok(()) => Ok(copied_judgements(alloc, &self.judged)?),
            Err(error) => Err(fault_of(error)),
        }
    }

    ghost settled = { λ k left clean up might. left_is might.0 _ (S.settled k.conn.store might.0 up might.1) (k.kept clean up) left might.2 };
}
