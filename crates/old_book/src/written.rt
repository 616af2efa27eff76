//! How a row of each table is written into tables that have none of it.

ghost use Rattle.std.specs.Prelude.{ℕ};
ghost use Rattle.old_book.specs.Placed.{with_body_at, with_upload_at, with_item_at, with_piece_of, with_arrival_at, with_want_of, with_ref_of, with_file_of};
ghost use Rattle.tables.specs.Calls.{CommitsNothing, FailsInside, IsSame, Writes};
ghost use Rattle.tables.specs.Rows.{Tables};

use crate::bodies::insert_body;
use crate::items::insert_item;
use crate::uploads::insert_upload;
use sqlite::{Alter, Error, Transaction};
use tables::arrivals::insert_arrival;
use tables::files::insert_file;
use tables::pieces::insert_piece;
use tables::refs::insert_ref;
use tables::rows::{ArrivalRow, BodyRow, File, ItemRow, Piece, Ref, UploadRow, Want};
use tables::wants::insert_want;

/// A row that comes from another archive, with the number that it had there.
pub(crate) trait Written: Sized {
    // what it makes of the tables at a moment
    ghost change: { ℕ → ℕ × Self → Tables → Tables };

    /// Adds it, under its number if other rows refer to it, and as of the moment if it is an arrival.
    fn insert<S: Alter>(
        &self,
        tx: &mut Transaction<'_, S>,
        id: u64,
        moment: u64,
    ) -> Result<(), Error>
        ensures same_reference { IsSame tx.old tx.new }
        ensures ok { Writes S.Store tx.old tx.new result (change moment (id, self.now)) }
        ensures err { FailsInside S.Store tx.old tx.new result }
        ensures survives { CommitsNothing S.Store tx.old tx.new };
}

impl Written for BodyRow {
    ghost change = { λ _. with_body_at };

    fn insert<S: Alter>(
        &self,
        tx: &mut Transaction<'_, S>,
        id: u64,
        _moment: u64,
    ) -> Result<(), Error> {
        insert_body(tx, id, self)
    }
}

impl Written for Piece {
    ghost change = { λ _. with_piece_of };

    fn insert<S: Alter>(
        &self,
        tx: &mut Transaction<'_, S>,
        _id: u64,
        _moment: u64,
    ) -> Result<(), Error> {
        insert_piece(tx, self.body, self.number, self.bytes.as_slice())
    }
}

impl Written for ArrivalRow {
    ghost change = { with_arrival_at };

    fn insert<S: Alter>(
        &self,
        tx: &mut Transaction<'_, S>,
        _id: u64,
        moment: u64,
    ) -> Result<(), Error> {
        insert_arrival(tx, self.name.as_str(), self.body, moment)?;
        Ok(())
    }
}

impl Written for UploadRow {
    ghost change = { λ _. with_upload_at };

    fn insert<S: Alter>(
        &self,
        tx: &mut Transaction<'_, S>,
        id: u64,
        _moment: u64,
    ) -> Result<(), Error> {
        insert_upload(tx, id, self)
    }
}

impl Written for Want {
    ghost change = { λ _. with_want_of };

    fn insert<S: Alter>(
        &self,
        tx: &mut Transaction<'_, S>,
        _id: u64,
        _moment: u64,
    ) -> Result<(), Error> {
        insert_want(tx, self.upload, self.name.as_str(), &self.print, self.here)
    }
}

impl Written for ItemRow {
    ghost change = { λ _. with_item_at };

    fn insert<S: Alter>(
        &self,
        tx: &mut Transaction<'_, S>,
        id: u64,
        _moment: u64,
    ) -> Result<(), Error> {
        insert_item(tx, id, self)
    }
}

impl Written for Ref {
    ghost change = { λ _. with_ref_of };

    fn insert<S: Alter>(
        &self,
        tx: &mut Transaction<'_, S>,
        _id: u64,
        _moment: u64,
    ) -> Result<(), Error> {
        insert_ref(tx, self)
    }
}

impl Written for File {
    ghost change = { λ _. with_file_of };

    fn insert<S: Alter>(
        &self,
        tx: &mut Transaction<'_, S>,
        _id: u64,
        _moment: u64,
    ) -> Result<(), Error> {
        insert_file(tx, self.path.as_str(), self.body)
    }
}
