// What holds of joined bundles: each function is proved, and does nothing.
ghost use Rattle.join_laws.specs.Laws.{AlikeAreEqualSaveForPlaces, JoinedAreAccepted, JoinedTextsReadBack, PlacesAreNotSeen};

/// Two types, signatures, constants or declarations of functions are alike exactly where they are equal save for places.
#[tactic(auto, using(crate::proofs::Placeless::alike_are_equal))]
pub fn alike_items_are_equal_save_for_places()
    ensures { AlikeAreEqualSaveForPlaces }
{}

/// Where each bundle is accepted by itself, and the globals of the joined bundle have at most 65,536 leaves together, the joined bundle
/// is accepted.
pub fn joined_bundles_are_accepted()
    ensures { JoinedAreAccepted }
{}

/// Bundles that are equal save for places are accepted, or are not, alike.
pub fn demands_do_not_see_places()
    ensures { PlacesAreNotSeen }
{}

/// The canonical text of a joined bundle reads back as that bundle save for places, so it is accepted exactly where the joined bundle is.
pub fn joined_texts_read_back()
    ensures { JoinedTextsReadBack }
{}
