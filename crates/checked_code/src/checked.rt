// Bundles that are checked.
ghost use Rattle.std.specs.Prelude.{◌≡◌, ◌^◌, ◌<◌, ◌++◌, None, Some, codes, drop, length, map, slice_get, is_some, IsSome, OnOk, OnErr};
ghost use Rattle.mu_base.specs.Files.{IsPrefix};
ghost use Rattle.type_definitions.specs.Same.{IsGraph};
ghost use Rattle.checked_code.specs.Checking.{bundle_tables, bundle_functions, bundle_blocks};
ghost use Rattle.check_tables.specs.Lookups.{signature_in, takes_of};
ghost use Rattle.checked_code.specs.Constants.{constant_values};
ghost use Rattle.checked_code.specs.Answers.{find, entry, first_in, takes_nothing, part, full_name, full_name_at, item_name, local_class, code_at, handler_of, global_classes, block_name, function_name};

use crate::blocks::{BlockCode, Function};
use crate::code::Code;
use crate::fault::EntryFault;
use bundle_names::Sort;
use check_tables::Tables;
use ir_lex::Name;
use ir_tree::{Block, Bundle, Funcdef, Item};
use mu_types::Classes;
use mu_values::Value;
use std::alloc::AllocError;
use std::marker::Model;
use text_forms::Listing;

fn write_dot(out: &mut Vec<u8>) -> Result<(), AllocError>
    ensures written { OnOk result (out.new.items ≡ out.old.items ++ codes ".") }
    ensures stays { OnErr result (out.new.items ≡ out.old.items) }
{
    out.push(b'.')?;
    Ok(())
}

/// Writes a name without its sigil.
fn write_bare(name: &Name, out: &mut Vec<u8>) -> Result<(), AllocError>
    ensures written { OnOk result (out.new.items ≡ out.old.items ++ drop 1 name.now.text) }
    ensures stays { OnErr result (out.new.items ≡ out.old.items) }
{
    match name.text.as_slice() {
        [_, rest @ ..] => out.extend_from_slice(rest),
        [] => Ok(()),
    }
}

/// Writes a dot and a name without its sigil. Where no memory is found the dot may have been written.
#[tactic(auto, using(mu_base::specs::Prefixes::prefix_self, mu_base::specs::Prefixes::prefix_longer))]
fn write_part(name: &Name, out: &mut Vec<u8>) -> Result<(), AllocError>
    ensures written { OnOk result (out.new.items ≡ out.old.items ++ part name.now) }
    ensures begins { OnErr result (IsPrefix out.old.items out.new.items) }
{
    write_dot(out)?;
    write_bare(name, out)
}

/// Writes the three parts of a block's full name. Where no memory is found some of them may have been written.
#[tactic(auto, using(mu_base::specs::Prefixes::prefix_self, mu_base::specs::Prefixes::prefix_longer, mu_base::specs::Prefixes::prefix_again))]
fn write_parts(function: &Funcdef, block: &Block, out: &mut Vec<u8>) -> Result<(), AllocError>
    ensures written { OnOk result (out.new.items ≡ out.old.items ++ full_name function.now block.now) }
    ensures begins { OnErr result (IsPrefix out.old.items out.new.items) }
{
    out.extend_from_slice(function.name.text.as_slice())?;
    write_part(&function.version, out)?;
    write_part(&block.head.name, out)
}

/// Writes a block's full name, or nothing where no memory is found.
fn write_full_name(function: &Funcdef, block: &Block, out: &mut Vec<u8>) -> Result<(), AllocError>
    ensures written { OnOk result (out.new.items ≡ out.old.items ++ full_name function.now block.now) }
    ensures stays { OnErr result (out.new.items ≡ out.old.items) }
{
    let before = out.len();
    let written = write_parts(function, block, out);
    if written.is_err() {
        out.truncate(before);
    }
    written
}

fn write_name_at(function: &Funcdef, at: u32, out: &mut Vec<u8>) -> Result<(), AllocError>
    ensures written { OnOk result (out.new.items ≡ out.old.items ++ full_name_at function.now (slice_get function.now.blocks at)) }
    ensures stays { OnErr result (out.new.items ≡ out.old.items) }
{
    match function.blocks.as_slice().get(at as usize) {
        None => Ok(()),
        Some(block) => write_full_name(function, block, out),
    }
}

fn write_item_name(item: &Item, out: &mut Vec<u8>) -> Result<(), AllocError>
    ensures written { OnOk result (out.new.items ≡ out.old.items ++ item_name (Some item.now)) }
    ensures stays { OnErr result (out.new.items ≡ out.old.items) }
{
    match item {
        Item::Funcdecl(item) => out.extend_from_slice(item.name.text.as_slice()),
        Item::Funcdef(item) => out.extend_from_slice(item.name.text.as_slice()),
        _ => Ok(()),
    }
}

/// A bundle that meets all demands on it. Contracts see the bundle.
#[derive(Drop)]
pub struct Checked {
    bundle: Bundle,
    tables: Tables,
    functions: Listing<Function>,
    blocks: Listing<BlockCode>,
    global_types: Listing<u32>,
    constants: Listing<Value>,
}

impl Model for Checked {
    ghost use Rattle.std.specs.Prelude.{List, ◌≡◌, ◌^◌, ◌<◌, None, length, map};
    ghost use Rattle.ir_tree.specs.declared.items.Item.{Item};
    ghost use Rattle.demands.specs.Demands.{first_unmet};
    ghost use Rattle.bundle_names.specs.Naming.{name_demands};
    ghost use Rattle.checked_code.specs.Constants.{constant_values};
    ghost use Rattle.checked_code.specs.Checking.{check_demands, bundle_tables, bundle_functions, bundle_blocks};
    ghost use Rattle.checked_code.specs.Answers.{global_classes};

    ghost Value = { List Item };

    ghost view = { λ c. c.bundle };

    ghost invariant = { λ c. (first_unmet (name_demands c.bundle) ≡ None) × (first_unmet (check_demands c.bundle) ≡ None) × (c.tables ≡ bundle_tables c.bundle) × (c.functions ≡ bundle_functions c.bundle) × (c.blocks ≡ bundle_blocks c.bundle) × (c.global_types ≡ global_classes (bundle_tables c.bundle) c.bundle) × (map (λ v. v.members) c.constants ≡ constant_values (bundle_tables c.bundle) c.bundle) × (length c.global_types < 2 ^ 32) };
}

impl Checked {
    ghost use Rattle.demands.specs.Demands.{first_unmet};
    ghost use Rattle.bundle_names.specs.Naming.{name_demands};
    ghost use Rattle.checked_code.specs.Checking.{check_demands};

    /// The bundle with all that is made of it. `check` of `bundle_check` makes it; what is asked here is what makes it safe for
    /// anyone. It takes no memory and cannot fail.
    pub fn new(
        bundle: Bundle,
        tables: Tables,
        functions: Listing<Function>,
        blocks: Listing<BlockCode>,
        global_types: Listing<u32>,
        constants: Listing<Value>,
    ) -> Checked
        requires named { first_unmet (name_demands bundle) ≡ None }
        requires met { first_unmet (check_demands bundle) ≡ None }
        requires tables { tables ≡ bundle_tables bundle }
        requires functions { functions ≡ bundle_functions bundle }
        requires blocks { blocks ≡ bundle_blocks bundle }
        requires global_types { global_types ≡ global_classes (bundle_tables bundle) bundle }
        requires constants { map (λ v. v.members) constants ≡ constant_values (bundle_tables bundle) bundle }
        requires few { length global_types < 2 ^ 32 }
        ensures { result ≡ bundle }
    {
        Checked {
            bundle,
            tables,
            functions,
            blocks,
            global_types,
            constants,
        }
    }

    /// The items as they are written, which meet all demands.
    pub fn items(&self) -> &[Item]
        ensures same { result.now ≡ self.now }
        ensures named { first_unmet (name_demands self.now) ≡ None }
        ensures met { first_unmet (check_demands self.now) ≡ None }
    {
        self.bundle.as_slice()
    }

    /// What the bundle defines under a name, its sigil included, with its number: each sort of item is counted from 0 in text order,
    /// a function where its name comes first. It takes the time of one hash.
    #[tactic(auto, unfolding(crate::specs::Entries::tables_of))]
    pub fn find(&self, name: &str) -> Option<Sort>
        ensures { result ≡ find self.now name.now }
    {
        self.tables.globals.names.find(name.as_bytes()).copied()
    }

    fn takes_nothing(&self, function: u32) -> bool
        ensures { result ≡ takes_nothing (takes_of (signature_in (bundle_tables self.now) (slice_get (bundle_tables self.now).functions function))) }
    {
        match self.tables.functions.as_slice().get(function as usize) {
            Some(s) => match self.tables.signatures.as_slice().get(*s as usize) {
                Some(signature) => signature.takes.is_empty(),
                None => false,
            },
            None => false,
        }
    }

    fn has_body(&self, function: u32) -> bool
        ensures { result ≡ is_some (first_in (slice_get (bundle_functions self.now) function)) }
    {
        match self.functions.as_slice().get(function as usize) {
            Some(function) => function.first.is_some(),
            None => false,
        }
    }

    /// The number of the function with that name, its `@` included. In this order: Unknown comes exactly where no function has the
    /// name, BadSignature where it has parameters, NoBody where it is only declared. It takes the time of one hash.
    pub fn entry(&self, name: &str) -> Result<u32, EntryFault>
        ensures { result ≡ entry self.now name.now }
    {
        match self.find(name) {
            Some(Sort::Function(n)) => if !self.takes_nothing(n) {
                Err(EntryFault::BadSignature)
            } else if !self.has_body(n) {
                Err(EntryFault::NoBody)
            } else {
                Ok(n)
            },
            _ => Err(EntryFault::Unknown),
        }
    }

    /// The types of the bundle.
    pub fn classes(&self) -> &Classes
        ensures same { result.now ≡ (bundle_tables self.now).types }
        ensures graph { IsGraph result.now.definitions }
    {
        self.tables.types.classes()
    }

    /// What the items say, each sort of item by number.
    pub fn tables(&self) -> &Tables
        ensures { result.now ≡ bundle_tables self.now }
    {
        &self.tables
    }

    /// How many constants there are.
    pub fn constants(&self) -> usize
        ensures { result ≡ length (bundle_tables self.now).constants }
    {
        self.tables.constants.len()
    }

    /// The class of a constant that is there.
    pub fn constant_type(&self, n: u32) -> u32
        requires { n < length (bundle_tables self.now).constants }
        ensures { slice_get (bundle_tables self.now).constants n ≡ Some result }
    {
        self.tables.constants.as_slice()[n as usize]
    }

    /// The value of a constant that is there.
    pub fn constant(&self, n: u32) -> &Value
        requires { n < length (bundle_tables self.now).constants }
        ensures { slice_get (constant_values (bundle_tables self.now) self.now) n ≡ Some result.now.members }
    {
        &self.constants.as_slice()[n as usize]
    }

    /// How many globals there are. `global_type` takes the numbers below it, and no others.
    pub fn globals(&self) -> u32
        ensures cells { result ≡ length (bundle_tables self.now).global_cells }
        ensures types { result ≡ length (global_classes (bundle_tables self.now) self.now) }
    {
        self.global_types.len() as u32
    }

    /// The class of the type of a global that is there.
    pub fn global_type(&self, n: u32) -> u32
        requires { n < length (global_classes (bundle_tables self.now) self.now) }
        ensures { slice_get (global_classes (bundle_tables self.now) self.now) n ≡ Some result }
    {
        self.global_types.as_slice()[n as usize]
    }

    /// How many functions there are, declared or defined.
    pub fn functions(&self) -> usize
        ensures { result ≡ length (bundle_functions self.now) }
    {
        self.functions.len()
    }

    /// A function that is there.
    pub fn function(&self, n: u32) -> &Function
        requires { n < length (bundle_functions self.now) }
        ensures { slice_get (bundle_functions self.now) n ≡ Some result.now }
    {
        &self.functions.as_slice()[n as usize]
    }

    /// How many blocks there are, in all functions together.
    pub fn blocks(&self) -> usize
        ensures { result ≡ length (bundle_blocks self.now) }
    {
        self.blocks.len()
    }

    /// A block that is there.
    pub fn block(&self, n: u32) -> &BlockCode
        requires { n < length (bundle_blocks self.now) }
        ensures { slice_get (bundle_blocks self.now) n ≡ Some result.now }
    {
        &self.blocks.as_slice()[n as usize]
    }

    /// The class of a variable that is there, of a block that is there: its parameters, its handler and its results are counted from 0
    /// in text order.
    pub fn local_type(&self, block: u32, variable: u32) -> u32
        requires { IsSome (local_class self.now block variable) }
        ensures { local_class self.now block variable ≡ Some result }
    {
        self.block(block).classes.as_slice()[variable as usize]
    }

    /// The variable that is the handler of a block that is there; None exactly where it has none.
    pub fn handler(&self, block: u32) -> Option<u32>
        requires { block < length (bundle_blocks self.now) }
        ensures { result ≡ handler_of (slice_get (bundle_blocks self.now) block) }
    {
        self.block(block).handler
    }

    /// An instruction that is there, of a block that is there.
    pub fn code(&self, block: u32, at: u32) -> &Code
        requires { IsSome (code_at self.now block at) }
        ensures { code_at self.now block at ≡ Some result.now }
    {
        &self.block(block).code.as_slice()[at as usize]
    }

    /// Writes the full name of a block that is there behind what `out` holds: that of its function, of the function's version and its
    /// own, as `@f.v.b`. Where no memory is found nothing is written.
    pub fn block_name(&self, n: u32, out: &mut Vec<u8>) -> Result<(), AllocError>
        requires { n < length (bundle_blocks self.now) }
        ensures written { OnOk result (out.new.items ≡ out.old.items ++ block_name self.now n) }
        ensures stays { OnErr result (out.new.items ≡ out.old.items) }
    {
        let block = self.block(n);
        match self.bundle.as_slice().get(block.item as usize) {
            Some(Item::Funcdef(function)) => write_name_at(function, block.at, out),
            _ => Ok(()),
        }
    }

    /// Writes the name of a function that is there behind what `out` holds, its `@` included. Where no memory is found nothing is
    /// written.
    pub fn function_name(&self, n: u32, out: &mut Vec<u8>) -> Result<(), AllocError>
        requires { n < length (bundle_functions self.now) }
        ensures written { OnOk result (out.new.items ≡ out.old.items ++ function_name self.now n) }
        ensures stays { OnErr result (out.new.items ≡ out.old.items) }
    {
        let function = self.function(n);
        match self.bundle.as_slice().get(function.item as usize) {
            Some(item) => write_item_name(item, out),
            None => Ok(()),
        }
    }
}
