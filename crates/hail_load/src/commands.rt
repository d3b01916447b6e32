//! The commands of a script.
ghost use Rattle.std.specs.Prelude.{◌≡◌, [], ◌∷◌, IfOk, OnOk};
ghost use Rattle.text_forms.specs.Reading.{read, whole};
ghost use Rattle.text_forms.specs.Answers.{Gives, GivesAll};
ghost use Rattle.hail_load.specs.Grammar.{new_command, newhybrid_command, init_command, command, line, line_is_open, with_indexes, hail};
ghost use Rattle.hail_load.specs.ScriptSoFar.{index_piece, no_script, extended, followed};

use crate::sources::source;
use crate::tokens::{bracketed, index, object, target};
use crate::tree::{Command, Hail, Index, Line, Piece};
use ir_lex::Cursor;
use std::alloc::{AllocError, Global};
use text_forms::{Listing, ReadError, Symbol};

/// How many braces may stand in one another.
const MOST_BRACES: usize = 64;

/// `.new O < G >`
#[tactic(auto, unfolding(crate::specs::Grammar::new_command))]
fn new_command(cursor: &mut Cursor, alloc: Global) -> Result<Command, ReadError>
    ensures { Gives result cursor.new (read new_command cursor.old) }
{
    let place = cursor.mark(Symbol::DotNew)?;
    let object = object(cursor, alloc)?;
    let of_type = bracketed(cursor, alloc)?;
    Ok(Command::New {
        place,
        object,
        of_type,
    })
}

/// `.newhybrid O < G > N`
#[tactic(auto, unfolding(crate::specs::Grammar::newhybrid_command))]
fn newhybrid_command(cursor: &mut Cursor, alloc: Global) -> Result<Command, ReadError>
    ensures { Gives result cursor.new (read newhybrid_command cursor.old) }
{
    let place = cursor.mark(Symbol::DotNewhybrid)?;
    let object = object(cursor, alloc)?;
    let of_type = bracketed(cursor, alloc)?;
    let length = cursor.numeral()?;
    Ok(Command::NewHybrid {
        place,
        object,
        of_type,
        length,
    })
}

/// `.init target = source`, without the indexes of a reference at the end.
#[tactic(auto, unfolding(crate::specs::Grammar::init_command))]
fn init_command(cursor: &mut Cursor, alloc: Global) -> Result<Command, ReadError>
    ensures { Gives result cursor.new (read init_command cursor.old) }
{
    cursor.mark(Symbol::DotInit)?;
    let target = target(cursor, alloc)?;
    let source = source(cursor, alloc, MOST_BRACES)?;
    Ok(Command::Init { target, source })
}

/// Any command.
#[tactic(auto, unfolding(crate::specs::Grammar::command))]
fn command(cursor: &mut Cursor, alloc: Global) -> Result<Command, ReadError>
    ensures { Gives result cursor.new (read command cursor.old) }
{
    if cursor.at(Symbol::DotNew) {
        new_command(cursor, alloc)
    } else if cursor.at(Symbol::DotNewhybrid) {
        newhybrid_command(cursor, alloc)
    } else {
        init_command(cursor, alloc)
    }
}

/// A command, or where one may come an index.
fn line(cursor: &mut Cursor, alloc: Global, leads: bool) -> Result<Line, ReadError>
    ensures { Gives result cursor.new (read (line leads) cursor.old) }
{
    if leads && cursor.at(Symbol::SquareOpen) {
        Ok(Line::Index(index(cursor)?))
    } else {
        Ok(Line::Command(command(cursor, alloc)?))
    }
}

/// What is read of a script: its commands, and whether an index may come next.
#[derive(Drop)]
struct Script {
    commands: Listing<Command>,
    leads: bool,
}

/// Whether an index may come next.
fn is_open(line: &Line) -> bool
    ensures { result ≡ line_is_open line.now }
{
    match line {
        Line::Command(Command::Init { source, .. }) => source.is_open(),
        Line::Command(_) => false,
        Line::Index(_) => true,
    }
}

/// The command with one more index behind it.
fn with_index(command: Command, index: Index) -> Result<Command, AllocError>
    ensures { IfOk result (λ c. c ≡ with_indexes command (index_piece index ∷ [])) }
{
    match command {
        Command::Init { target, mut source } => {
            source.push(Piece::Index(index))?;
            Ok(Command::Init { target, source })
        }
        command => Ok(command),
    }
}

/// Adds an index to the source of the last command.
fn extend(commands: &mut Listing<Command>, index: Index) -> Result<(), AllocError>
    ensures { OnOk result (commands.new ≡ extended commands.old (index_piece index ∷ [])) }
{
    if commands.is_empty() {
        return Ok(());
    }
    match commands.pop() {
        None => Ok(()),
        Some(command) => {
            let command = with_index(command, index)?;
            commands.push(command)
        }
    }
}

impl Script {
    fn new(alloc: Global) -> Script
        ensures { result ≡ no_script }
    {
        Script {
            commands: Listing::new(alloc),
            leads: false,
        }
    }

    /// Adds a line. When out of memory, lines are lost.
    fn add(&mut self, line: Line) -> Result<(), AllocError>
        ensures { OnOk result (self.new ≡ followed self.old line) }
    {
        self.leads = is_open(&line);
        match line {
            Line::Command(command) => self.commands.push(command),
            Line::Index(index) => extend(&mut self.commands, index),
        }
    }
}

/// The commands up to the end of the text.
pub fn hail(cursor: &mut Cursor, alloc: Global) -> Result<Hail, ReadError>
    ensures { GivesAll result (whole hail cursor.old) }
{
    let mut script = Script::new(alloc);
    'each: while !cursor.at(Symbol::End) {
        let line = line(cursor, alloc, script.leads)?;
        script.add(line)?;
    }
    Ok(script.commands)
}
