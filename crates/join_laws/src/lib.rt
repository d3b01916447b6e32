//! Laws of joined bundles.
#![tactic(auto)]

mod laws;

pub use laws::{
    alike_items_are_equal_save_for_places, demands_do_not_see_places, joined_bundles_are_accepted,
    joined_texts_read_back,
};
