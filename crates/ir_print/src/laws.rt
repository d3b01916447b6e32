//! Laws of the canonical text: each function is proved, and does nothing.
ghost use Rattle.ir_print.specs.Laws.{ReadsBack, ReadsBackOnly, ItemsReadBack};

/// The canonical text of a bundle that some text means is itself a text, of a bundle that is the same save for places, and
/// of no other bundle.
pub fn reads_back()
    ensures back { ReadsBack }
    ensures only { ReadsBackOnly }
{}

/// The same holds of items that come from several texts, as those of joined bundles do.
pub fn items_read_back()
    ensures { ItemsReadBack }
{}
