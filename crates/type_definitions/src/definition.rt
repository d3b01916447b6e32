// How types and signatures are defined.
use text_forms::Listing;

/// The definition of a type or of a signature. Other definitions stand in it by their ids.
#[derive(Drop)]
pub enum TypeDef {
    /// Integers of that many bits.
    Int {
        width: u128,
    },
    /// One value of each field, in order.
    Struct {
        fields: Listing<u32>,
    },
    /// As many elements as its length.
    Array {
        element: u32,
        length: u128,
    },
    /// Fixed fields, and then any number of elements.
    Hybrid {
        fixed: Listing<u32>,
        element: u32,
    },
    /// No value.
    Void,
    /// References to objects.
    Ref(u32),
    /// References to places within objects.
    Iref(u32),
    /// References to functions of that signature.
    FuncRef(u32),
    /// References to stacks.
    StackRef,
    /// References to threads.
    ThreadRef,
    /// A signature: the types of the parameters and of the results.
    Sig {
        takes: Listing<u32>,
        gives: Listing<u32>,
    },
}
