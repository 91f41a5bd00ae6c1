//! A store of objects by its meaning: a map from keys to objects that changes by batches, each at one stroke.
//!
//! `ObjectStore` says what each call answers and leaves, also where power goes. `TableStore` is one in
//! lent memory. `judge` answers a batch from a table of keys before anything is changed, and
//! `put_record` and `drop_removed` change such a table; they are for whoever writes another kind of store.

#![tactic(auto)]

mod apply;
mod batch;
mod change;
mod check;
mod edit;
mod fault;
mod kept;
mod laws;
mod store;
mod table;
mod table_store;
mod uses;
mod work;

pub use batch::removes;
pub use change::Change;
pub use check::{BATCH_LIMIT, judge};
pub use edit::{drop_removed, put_record};
pub use fault::ObjectFault;
pub use kept::Kept;
pub use laws::{
    batch_has_keys, fit_batch_keeps_sound, found_fits, removal_is_told, same_told_same_map,
    set_is_told,
};
pub use store::{KEY_LIMIT, ObjectStore};
pub use table::OfKey;
pub use table_store::TableStore;
pub use uses::{count_entries, create, entry_of};
