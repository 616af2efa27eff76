//! The rows of all tables.

use tables::rows::{
    ArrivalRow, BodyRow, Date, File, ItemRow, Meta, Piece, Ref, TextRow, UploadRow, Want,
};

/// All rows of the tables, each with its rowid, in the order of these.
#[derive(Drop)]
pub struct AllRows {
    pub meta: Vec<(u64, Meta)>,
    pub bodies: Vec<(u64, BodyRow)>,
    pub pieces: Vec<(u64, Piece)>,
    pub arrivals: Vec<(u64, ArrivalRow)>,
    pub uploads: Vec<(u64, UploadRow)>,
    pub wants: Vec<(u64, Want)>,
    pub items: Vec<(u64, ItemRow)>,
    pub refs: Vec<(u64, Ref)>,
    pub files: Vec<(u64, File)>,
    pub texts: Vec<(u64, TextRow)>,
    pub dates: Vec<(u64, Date)>,
}
