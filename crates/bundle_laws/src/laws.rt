// Laws of checked bundles: each function is proved, and does nothing.
ghost use Rattle.bundle_laws.specs.Laws.{AcceptedTablesFit, AcceptedBlocksFit, AcceptedCodeFits};

/// The tables of a bundle that meets its demands are such as well typed code asks.
pub fn accepted_tables_fit()
    ensures { AcceptedTablesFit }
{}

/// Each block of a bundle that meets its demands is well typed code.
pub fn accepted_blocks_fit()
    ensures { AcceptedBlocksFit }
{}

/// The code of each block, by its number, is well typed, and goes to blocks that are there.
pub fn accepted_code_fits()
    ensures { AcceptedCodeFits }
{}
