//! Configurations that an archive gets, and the one that it has.

use crate::outcomes::printed;
use book::{KeepFault, Keeper, LATEST};
use queue::Archive;
use rules::{Config, ConfigFault};
use std::alloc::Global;
use test_rows::{Unread, number_of, said};

/// Why an archive is not given another configuration.
#[derive(Clone, Copy, Debug)]
pub enum NotConfigured {
    OutOfMemory,
    /// The text is no configuration.
    Text(ConfigFault),
    Keeper(KeepFault),
    /// The moment is after 4102444799.
    Late,
}

/// Gives an archive the configuration of a text, at a moment.
pub fn configured<K: Keeper>(
    alloc: Global,
    archive: &mut Archive<K>,
    text: &[u8],
    moment: u64,
) -> Result<(), NotConfigured> {
    if moment > LATEST {
        return Err(NotConfigured::Late);
    }
    let config = match Config::read(alloc, text) {
        Ok(config) => config,
        Err(ConfigFault::OutOfMemory) => return Err(NotConfigured::OutOfMemory),
        Err(fault) => return Err(NotConfigured::Text(fault)),
    };
    match archive.configure(alloc, config, moment) {
        Ok(()) => Ok(()),
        Err(KeepFault::OutOfMemory) => Err(NotConfigured::OutOfMemory),
        Err(fault) => Err(NotConfigured::Keeper(fault)),
    }
}

/// `configured`, or the fault as it is printed. Want of memory ends the file.
pub fn told(alloc: Global, done: Result<(), NotConfigured>) -> Result<Vec<u8>, Unread> {
    match done {
        Ok(()) => said(alloc, "configured"),
        Err(NotConfigured::OutOfMemory) => Err(Unread::OutOfMemory),
        Err(NotConfigured::Text(fault)) => printed(alloc, &fault),
        Err(NotConfigured::Keeper(fault)) => printed(alloc, &fault),
        Err(NotConfigured::Late) => Err(Unread::BadWords),
    }
}

/// `configure MOMENT CONFIG`: `configured`, or the fault.
pub fn configure<K: Keeper>(
    alloc: Global,
    archive: &mut Archive<K>,
    words: &[Vec<u8>],
) -> Result<Vec<u8>, Unread> {
    let [moment, text] = words else {
        return Err(Unread::BadWords);
    };
    let moment = number_of(moment)?;
    told(alloc, configured(alloc, archive, text.as_slice(), moment))
}

/// `configuration`: the text of the configuration.
pub fn configuration<K: Keeper>(
    alloc: Global,
    archive: &Archive<K>,
    words: &[Vec<u8>],
) -> Result<Vec<u8>, Unread> {
    if !words.is_empty() {
        return Err(Unread::BadWords);
    }
    Ok(Vec::from_slice(alloc, archive.keeper.config().text())?)
}
