// What holds of kin types in every two graphs.
ghost use Rattle.type_definitions.specs.Same.{IsGraph};
ghost use Rattle.type_definitions.specs.Laws.{IsFinite};
ghost use Rattle.kin_laws.specs.Kin.{KinDecides, KinEnd, KinHaveAsManyLeaves};

use type_definitions::TypeDef;

/// Types that are kin to the same type are the same type.
#[tactic(auto, using(crate::specs::Lemmas::Kin::kin_decides))]
pub fn kin_of_the_same_type_are_the_same(first: &[TypeDef], second: &[TypeDef])
    requires first { IsGraph first.now }
    requires second { IsGraph second.now }
    ensures { KinDecides first.now second.now }
{}

/// Where no type of the first graph contains itself, no kin of one does.
pub fn kin_of_finite_types_are_finite(first: &[TypeDef], second: &[TypeDef])
    requires first { IsGraph first.now }
    requires finite { IsFinite first.now }
    ensures { KinEnd first.now second.now }
{}

/// Where no type of either graph contains itself, kin types have as many leaves.
pub fn kin_have_as_many_leaves(first: &[TypeDef], second: &[TypeDef])
    requires first { IsGraph first.now }
    requires second { IsGraph second.now }
    requires first_finite { IsFinite first.now }
    requires second_finite { IsFinite second.now }
    ensures { KinHaveAsManyLeaves first.now second.now }
{}
