// What holds of the same type, of classes and of leaves in every graph.
ghost use Rattle.type_definitions.specs.Same.{IsGraph};
ghost use Rattle.type_definitions.specs.Laws.{IsEquivalence, IsCongruence, IsSteady, ClassesDecide, LeavesRespect, ClassesDecideLeaves, IsFinite, LeavesUnfold, LeavesAreScalar, WalksAreCut, ReturnsAreFound};

use super::definition::TypeDef;

/// The same type is reflexive, symmetric and transitive.
#[tactic(auto, using(crate::specs::Lemmas::Proved::equivalence))]
pub fn same_type_is_an_equivalence(graph: &[TypeDef])
    requires { IsGraph graph.now }
    ensures { IsEquivalence graph.now }
{}

/// Two types are the same exactly where their definitions agree and their arguments are the same in pairs.
#[tactic(auto, using(crate::specs::Lemmas::Proved::congruence))]
pub fn same_type_is_a_congruence(graph: &[TypeDef])
    requires { IsGraph graph.now }
    ensures { IsCongruence graph.now }
{}

/// Types that are the same unfold alike to every depth, also past the number of types and signatures.
#[tactic(auto, using(crate::specs::Lemmas::Proved::steadiness))]
pub fn same_type_is_steady(graph: &[TypeDef])
    requires { IsGraph graph.now }
    ensures { IsSteady graph.now }
{}

/// A class is the same type as its types and no later than they; two classes are equal exactly for the same type.
#[tactic(auto, using(crate::specs::Lemmas::Proved::decided))]
pub fn classes_decide(graph: &[TypeDef])
    requires { IsGraph graph.now }
    ensures { ClassesDecide graph.now }
{}

/// The leaves of types that are the same are the same types, one by one.
#[tactic(auto, using(crate::specs::Lemmas::Respect::respected))]
pub fn leaves_respect_the_same_type(graph: &[TypeDef])
    requires { IsGraph graph.now }
    ensures { LeavesRespect graph.now }
{}

/// Types of one class have as many leaves, of the same classes one by one.
#[tactic(auto, using(crate::specs::Lemmas::Respect::class_decides))]
pub fn classes_decide_leaves(graph: &[TypeDef])
    requires { IsGraph graph.now }
    ensures { ClassesDecideLeaves graph.now }
{}

/// Where no type contains itself, the leaves of a struct are those of its fields, those of an array its element's as often as its
/// length, those of a hybrid its fixed fields', and a scalar type is its own leaf.
#[tactic(auto, using(crate::specs::Lemmas::Unfolds::leaves_are))]
pub fn leaves_unfold(graph: &[TypeDef])
    requires graph { IsGraph graph.now }
    requires finite { IsFinite graph.now }
    ensures { LeavesUnfold graph.now }
{}

/// Each leaf is an int or a reference.
#[tactic(auto, using(crate::specs::Lemmas::Unfolds::leaves_scalar))]
pub fn leaves_are_scalar(graph: &[TypeDef])
    ensures { LeavesAreScalar graph.now }
{}

/// A walk from wholes to parts, of any number of steps, can be cut to one of at most as many steps as there are types and
/// signatures. So a type contains itself, which is a walk of at most that many steps, exactly where any walk leads back to it.
#[tactic(auto, using(crate::specs::Lemmas::Walks::cut))]
pub fn walks_can_be_cut(graph: &[TypeDef])
    ensures walks { WalksAreCut graph.now }
    ensures returns { ReturnsAreFound graph.now }
{}
