//! Pages for people, as HTML: what the suites show, what waits, and what was judged.
//!
//! A page is made of markup and of texts that come from outside. Markup goes in by `push_markup`, which takes constants alone, and a text
//! by `push_text`, so that nothing in it is markup. There is no third way in.
#![tactic(auto)]

mod escape;
mod frame;
mod grouped;
mod index;
mod laws;
mod link;
mod site;
mod suite;
mod synopsis;
mod table;
mod uploads;
mod verdict;

pub use escape::{no_text_is_markup, push_text};
pub use frame::POLICY;
pub use index::{KEY, Key, index_page};
pub use laws::texts_leave_the_markup;
pub use site::{MOST_ROWS, Site};
pub use suite::suite_page;
pub use uploads::uploads_page;
