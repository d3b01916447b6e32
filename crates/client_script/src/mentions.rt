// What the global names of a script stand for.
ghost use Rattle.std.specs.Prelude.{◌≡◌, ◌<◌, [], ◌∷◌, IfOk, Some, length, slice_get};
ghost use Rattle.checked_code.specs.Constants.{constant_values};
ghost use Rattle.checked_code.specs.Checking.{bundle_tables};
ghost use Rattle.mu_values.specs.declared.scalars.Scalar.TheVariants as kinds;
ghost use Rattle.client_script.specs.Mentions.{mentioned};

use crate::judging::LAST;
use crate::parts::GLOBALS;
use bundle_names::Sort;
use check_tables::Tables;
use checked_code::Checked;
use ir_lex::Cursor;
use mu_values::Scalar;
use std::alloc::{AllocError, Global};
use std::collections::BTreeMap;
use std::marker::Model;
use std::rc::RcSlice;
use text_forms::Listing;

/// What a name stands for, as it is kept.
#[derive(Drop)]
pub(crate) enum Mentioned {
    /// The scalars of a constant, which all mentions of it share
    Constant(RcSlice<Scalar>),
    /// The place of a global
    GlobalCell(u32),
    /// A function
    Function(u32),
    /// No value
    Nothing,
}

/// The value that a name stands for. It takes as much memory whatever the value is: all mentions of a constant share one copy of its
/// scalars. Contracts see the scalars.
#[derive(Drop)]
pub struct Mention {
    what: Mentioned,
}

impl Model for Mention {
    ghost use Rattle.std.specs.Prelude.{List};
    ghost use Rattle.mu_values.specs.declared.scalars.Scalar.{Scalar};
    ghost use Rattle.client_script.specs.Mentions.{mentioned};

    ghost Value = { List Scalar };

    ghost view = { λ m. mentioned m.what };
}

/// A copy of some scalars.
pub(crate) fn copied(alloc: Global, scalars: &[Scalar]) -> Result<Listing<Scalar>, AllocError>
    ensures { IfOk result (λ copy. copy ≡ scalars.now) }
{
    let mut copy = Listing::new(alloc);
    for scalar in scalars {
        copy.push(*scalar)?;
    }
    Ok(copy)
}

/// One scalar as a list of one.
fn alone(alloc: Global, scalar: Scalar) -> Result<Listing<Scalar>, AllocError>
    ensures { IfOk result (λ one. one ≡ scalar ∷ []) }
{
    let mut one = Listing::new(alloc);
    one.push(scalar)?;
    Ok(one)
}

/// The scalars of what is kept.
fn scalars_of(alloc: Global, what: &Mentioned) -> Result<Listing<Scalar>, AllocError>
    ensures { IfOk result (λ value. value ≡ mentioned what.now) }
{
    match what {
        Mentioned::Constant(scalars) => copied(alloc, scalars.as_slice()),
        Mentioned::GlobalCell(object) => alone(
            alloc,
            Scalar::Place {
                object: *object,
                at: 0,
            },
        ),
        Mentioned::Function(n) => alone(alloc, Scalar::Func(*n)),
        Mentioned::Nothing => Ok(Listing::new(alloc)),
    }
}

impl Mention {
    /// A constant with these scalars.
    fn constant(scalars: RcSlice<Scalar>) -> Mention
        ensures { result ≡ mentioned (Mentioned.Constant scalars) }
    {
        Mention {
            what: Mentioned::Constant(scalars),
        }
    }

    /// The place of a global.
    pub(crate) fn global_cell(object: u32) -> Mention
        ensures { result ≡ kinds.Place object 0 ∷ [] }
    {
        Mention {
            what: Mentioned::GlobalCell(object),
        }
    }

    /// A function.
    pub(crate) fn function(n: u32) -> Mention
        ensures { result ≡ kinds.Func n ∷ [] }
    {
        Mention {
            what: Mentioned::Function(n),
        }
    }

    /// No scalars.
    pub(crate) fn nothing() -> Mention
        ensures { result ≡ [] }
    {
        Mention {
            what: Mentioned::Nothing,
        }
    }

    /// A copy of the scalars. It takes time and memory for each.
    pub fn scalars(&self, alloc: Global) -> Result<Listing<Scalar>, AllocError>
        ensures { IfOk result (λ value. value ≡ self.now) }
    {
        scalars_of(alloc, &self.what)
    }
}

/// A bundle, with one copy of each constant that is shared. Contracts see the bundle.
#[derive(Drop)]
pub(crate) struct Shared<'a> {
    code: &'a Checked,
    constants: BTreeMap<u32, RcSlice<Scalar>>,
}

impl<'a> Model for Shared<'a> {
    ghost use Rattle.std.specs.Prelude.{◌≡◌, ℕ, List, Some, slice_get, IfSome};
    ghost use Rattle.std.specs.Ordering.{nat_cmp};
    ghost use Rattle.std.specs.BTreeMap.{get};
    ghost use Rattle.std.specs.Rc.{rc_slice_items};
    ghost use Rattle.ir_tree.specs.declared.items.Item.{Item};
    ghost use Rattle.checked_code.specs.Constants.{constant_values};
    ghost use Rattle.checked_code.specs.Checking.{bundle_tables};

    ghost Value = { List Item };

    ghost view = { λ s. s.code.now };

    ghost invariant = { λ s. (n : ℕ) → IfSome (get nat_cmp s.constants n) (λ value. slice_get (constant_values (bundle_tables s.code.now) s.code.now) n ≡ Some (rc_slice_items value)) };
}

impl<'a> Shared<'a> {
    /// No constant is shared yet. It takes no memory.
    fn new(alloc: Global, code: &'a Checked) -> Shared<'a>
        ensures { result ≡ code.now }
    {
        Shared {
            code,
            constants: BTreeMap::new(alloc),
        }
    }

    /// The tables of the bundle.
    pub(crate) fn tables(&self) -> &Tables
        ensures { result.now ≡ bundle_tables self.now }
    {
        self.code.tables()
    }

    /// Shares a constant from now on.
    fn share(&mut self, alloc: Global, n: u32) -> Result<(), AllocError>
        ensures { self.new ≡ self.old }
    {
        if n as usize >= self.code.constants() || self.constants.contains_key(&n) {
            return Ok(());
        }
        let scalars = RcSlice::from_slice(alloc, self.code.constant(n).as_slice())?;
        match self.constants.insert(n, scalars) {
            Ok(_) => Ok(()),
            Err(_) => Err(AllocError),
        }
    }

    /// Shares the constant with a name, if one has it.
    fn share_named(&mut self, alloc: Global, name: &[u8]) -> Result<(), AllocError>
        ensures { self.new ≡ self.old }
    {
        match self.code.tables().globals.names.find(name).copied() {
            Some(Sort::Constant(n)) => self.share(alloc, n),
            _ => Ok(()),
        }
    }

    /// Shares the constant that a token mentions, if it does.
    fn share_token(&mut self, alloc: Global, cursor: &Cursor) -> Result<(), AllocError>
        ensures { self.new ≡ self.old }
    {
        if cursor.at_any(&GLOBALS) {
            self.share_named(alloc, cursor.spelling())
        } else {
            Ok(())
        }
    }

    /// A constant. It takes constant time and no memory for its scalars, where it is shared.
    pub(crate) fn constant(&self, alloc: Global, n: u32) -> Result<Mention, AllocError>
        requires { n < length (bundle_tables self.now).constants }
        ensures { IfOk result (λ value. slice_get (constant_values (bundle_tables self.now) self.now) n ≡ Some value) }
    {
        match self.constants.get(&n) {
            Some(scalars) => {
                let scalars = scalars.clone()?;
                Ok(Mention::constant(scalars))
            }
            None => {
                let scalars = RcSlice::from_slice(alloc, self.code.constant(n).as_slice())?;
                Ok(Mention::constant(scalars))
            }
        }
    }
}

/// The bundle, with each constant that a text mentions. It takes memory for each of these once.
pub(crate) fn share_all<'a>(
    alloc: Global,
    text: &[u8],
    code: &'a Checked,
) -> Result<Shared<'a>, AllocError>
    ensures { IfOk result (λ shared. shared ≡ code.now) }
{
    let mut shared = Shared::new(alloc, code);
    let mut cursor = Cursor::new(text);
    'each: while !cursor.at_any(&LAST) {
        shared.share_token(alloc, &cursor)?;
        cursor.bump();
    }
    Ok(shared)
}
