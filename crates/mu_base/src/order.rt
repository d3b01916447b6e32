/// The memory orders of an access or a fence, from the weakest on. `NotAtomic` is the order of plain accesses;
/// `Consume` means `Acquire`.
#[derive(Clone, Copy, Debug, PartialEq, Eq)]
pub enum Order {
    NotAtomic,
    Relaxed,
    Consume,
    Acquire,
    Release,
    AcqRel,
    SeqCst,
}
