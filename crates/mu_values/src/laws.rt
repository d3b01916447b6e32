// Laws of the definitions, each the contract of a function that does nothing.
ghost use Rattle.std.specs.Prelude.{◌≡◌, ◌↔◌, ◌<◌, ◌^◌, ℕ, true, Some};
ghost use Rattle.mu_values.specs.SameCell.{same_cell};
ghost use Rattle.mu_values.specs.SameScalar.{same_scalar};
ghost use Rattle.mu_values.specs.declared.cells.CellId.{CellId};
ghost use Rattle.mu_values.specs.Integers.{binary_value, converted, IsConversion};
ghost use Rattle.mu_values.specs.Updates.{updated_bits};
ghost use Rattle.mu_values.specs.declared.scalars.Scalar.{Scalar};
ghost use Rattle.mu_base.specs.declared.operators.BinaryOp.{BinaryOp};
ghost use Rattle.mu_base.specs.declared.operators.ConvertOp.{ConvertOp};
ghost use Rattle.mu_base.specs.declared.operators.UpdateOp.{UpdateOp};

/// The test of two scalars holds exactly where they are equal.
pub fn same_scalar_is_equality()
    ensures { (a b : Scalar) → (same_scalar a b ≡ true) ↔ (a ≡ b) }
{}

/// What is computed with two integers of a width is an integer of that width.
pub fn results_keep_the_width()
    ensures { (op : BinaryOp) (w a b n : ℕ) → a < 2 ^ w → b < 2 ^ w → binary_value op w a b ≡ Some n → n < 2 ^ w }
{}

/// What an integer is at another width is an integer of that width.
pub fn conversions_keep_the_width()
    ensures { (op : ConvertOp) (from to n : ℕ) → IsConversion op from to → n < 2 ^ from → converted op from to n < 2 ^ to }
{}

/// What an update makes of two integers of a width is an integer of that width.
pub fn updates_keep_the_width()
    ensures { (op : UpdateOp) (w a b : ℕ) → a < 2 ^ w → b < 2 ^ w → updated_bits op w a b < 2 ^ w }
{}

/// The test of two cells holds exactly where they are equal.
pub fn same_cell_is_equality()
    ensures { (a b : CellId) → (same_cell a b ≡ true) ↔ (a ≡ b) }
{}
