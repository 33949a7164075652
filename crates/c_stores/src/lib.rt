//! Live stores as C holds them, with their notices and entrances, and what readers do.
#![tactic(auto)]

mod stores;

pub use stores::{
    HeldEntrance, HeldNotice, HeldStore, all_may_go, close_entrance, close_notice, close_store,
    enter, enter_after, entrance, entrance_size, is_current, leave, load, notice, notice_size,
    open, publish, reader_from, reclaim, store_number, store_size,
};
