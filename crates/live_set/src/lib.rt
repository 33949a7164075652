//! Sets of catalogues: for each text domain and locale the catalogue that was loaded last.
#![tactic(auto)]

mod languages;
mod law;
mod leaf;
mod listed;
mod load;
mod many;
mod name;
mod places;
mod query;
mod run;
mod runs;
mod set;

pub use law::latest_suffice;
pub use listed::Languages;
pub use load::Load;
pub use name::{Name, NameFault, is_name};
pub use places::{MOST_PLACES, Places};
pub use query::{Ask, Query};
pub use set::CatalogueSet;
