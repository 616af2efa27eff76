//! The configuration of an archive, read from the row of `meta`.

ghost use Rattle.std.specs.Prelude.{◌≡◌, [], ◌∷◌, None, Ok, IfOk, IfSome};
ghost use Rattle.rules.specs.Configuration.{config_in as config_of_text};
ghost use Rattle.rules.specs.Values.{ConfigValue};
ghost use Rattle.tables.specs.Rows.{rows_of};
ghost use Rattle.tables_read.specs.All.{tables_with};

use rules::{Config, ConfigFault};
use std::alloc::{AllocError, Global};
use tables::meta::VERSION;
use tables::rows::Meta;
use tables_read::AllRows;

/// The configuration that a text is, if the text is a valid one.
fn config_of(alloc: Global, text: &[u8]) -> Result<Option<Config>, AllocError>
    ensures some { IfOk result (λ o. IfSome o (λ config. config_of_text text.now ≡ Ok config)) }
    ensures none { IfOk result (λ o. o ≡ None
        → (config : ConfigValue) → config_of_text text.now ≡ Ok config → ⊥) }
{
    match Config::read(alloc, text) {
        Ok(config) => Ok(Some(config)),
        Err(ConfigFault::OutOfMemory) => Err(AllocError),
        Err(_) => Ok(None),
    }
}

/// The configuration that a row has, if the row has the version of today's layout and its text is a valid
/// configuration.
fn config_in_row(alloc: Global, row: &Meta) -> Result<Option<Config>, AllocError>
    ensures some { IfOk result (λ o. IfSome o (λ config. (row.now ≡ record { version = VERSION; configuration = config.text })
        × (config_of_text config.text ≡ Ok config))) }
    ensures none { IfOk result (λ o. o ≡ None
        → (config : ConfigValue) → row.now ≡ record { version = VERSION; configuration = config.text }
        → config_of_text config.text ≡ Ok config → ⊥) }
{
    if row.version != VERSION {
        return Ok(None);
    }
    config_of(alloc, row.configuration.as_slice())
}

/// The configuration of an archive with these rows: the one row of `meta` has the version of today's layout, and this
/// text.
pub fn config_in(alloc: Global, all: &AllRows) -> Result<Option<Config>, AllocError>
    ensures some { IfOk result (λ o. IfSome o (λ config.
        (rows_of (tables_with all.now).meta ≡ record { version = VERSION; configuration = config.text } ∷ [])
        × (config_of_text config.text ≡ Ok config))) }
    ensures none { IfOk result (λ o. o ≡ None → (config : ConfigValue)
        → rows_of (tables_with all.now).meta ≡ record { version = VERSION; configuration = config.text } ∷ []
        → config_of_text config.text ≡ Ok config → ⊥) }
{
    let rows = all.meta.as_slice();
    if rows.len() != 1 {
        return Ok(None);
    }
    config_in_row(alloc, &rows[0].1)
}
