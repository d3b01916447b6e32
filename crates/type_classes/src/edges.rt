// An argument, seen from where it leads.

/// The argument at that place of that type. There may be millions, so both are kept small.
#[derive(Clone, Copy, Drop)]
pub struct Edge {
    pub place: u32,
    pub from: u32,
}
