// The variables of a block.
ghost use Rattle.std.specs.Prelude.{◌≡◌, ◌++◌, Some, IsSome, slice_get};

use mu_values::{Scalar, Slots};
use std::marker::Model;

/// The variables of a block: those that a frame has, and behind them the results of the instruction that it stands at, where they are
/// there already. Contracts see the values.
#[derive(Drop)]
pub struct Variables<'a> {
    own: &'a Slots,
    results: Option<&'a Slots>,
}

impl<'a> Model for Variables<'a> {
    ghost use Rattle.std.specs.Prelude.{List, option_copied};
    ghost use Rattle.mu_values.specs.declared.scalars.Scalar.{Scalar};
    ghost use Rattle.step_forms.specs.VariableLists.{with_results};

    ghost Value = { List (List Scalar) };

    ghost view = { λ v. with_results v.own.now.values (option_copied v.results) };
}

impl<'a> Variables<'a> {
    /// Those that a frame has.
    pub fn of(own: &'a Slots) -> Variables<'a>
        ensures { result ≡ own.now.values }
    {
        Variables { own, results: None }
    }

    /// Those that a frame has, and results behind them.
    pub fn behind(own: &'a Slots, results: &'a Slots) -> Variables<'a>
        ensures { result ≡ own.now.values ++ results.now.values }
    {
        Variables {
            own,
            results: Some(results),
        }
    }

    /// The value of a variable that is there. It is looked up in constant time.
    #[tactic(auto, using(crate::specs::OperandLaws::variables))]
    #[inline(always)]
    pub fn at(&self, n: u32) -> &'a [Scalar]
        requires { IsSome (slice_get self.now n) }
        ensures { slice_get self.now n ≡ Some result.now }
    {
        let n = n as usize;
        let own = self.own;
        if n < own.len() {
            return own.at(n);
        }
        match self.results {
            Some(results) => results.at(n - own.len()),
            None => unreachable!(),
        }
    }
}
