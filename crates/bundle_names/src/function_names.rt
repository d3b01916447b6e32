// The names within a function.
use name_scopes::Scope;

/// The names that the instructions of a function may use.
#[derive(Drop)]
pub struct FunctionNames {
    /// Its blocks.
    pub blocks: Scope<()>,
    /// The parameters, handlers and results of all its blocks.
    pub variables: Scope<()>,
}
