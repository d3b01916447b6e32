// The lines of a run.
ghost use Rattle.std.specs.Prelude.{◌≡◌, ◌++◌, OnOk, OnErr};
ghost use Rattle.mu_base.specs.Files.{IsPrefix};
ghost use Rattle.run_texts.specs.Texts.{line_text};
ghost use Rattle.run_texts.specs.Pieces.{lines_text};

use crate::events::event_text;
use crate::records::record_text;
use checked_code::Checked;
use mu_model::Line;
use std::alloc::AllocError;

// Appends a line. Where no memory is found a part of it may have been appended.
#[tactic(auto, using(mu_base::specs::Prefixes::prefix_self, mu_base::specs::Prefixes::prefix_longer, mu_base::specs::Prefixes::prefix_again))]
fn whole_line(code: &Checked, line: &Line, out: &mut Vec<u8>) -> Result<(), AllocError>
    ensures appended { OnOk result (out.new.items ≡ out.old.items ++ line_text code.now line.now) }
    ensures begins { OnErr result (IsPrefix out.old.items out.new.items) }
{
    match line {
        Line::Event { number, event } => event_text(code, *number, event, out)?,
        Line::Note(note) => record_text(code, note, out)?,
    }
    out.extend_from_slice(b"\n")
}

// Appends lines. Where no memory is found some of them may have been appended.
#[tactic(auto, using(mu_base::specs::Prefixes::prefix_self, mu_base::specs::Prefixes::prefix_longer, mu_base::specs::Prefixes::prefix_again))]
fn whole_lines(code: &Checked, lines: &[Line], out: &mut Vec<u8>) -> Result<(), AllocError>
    ensures appended { OnOk result (out.new.items ≡ out.old.items ++ lines_text code.now lines.now) }
    ensures begins { OnErr result (IsPrefix out.old.items out.new.items) }
{
    for line in lines {
        whole_line(code, line, out)?;
    }
    Ok(())
}

/// Appends a line of a run, its line feed included. It is refused only when out of memory, and then `out` is as it was. It takes time
/// in proportion to the line.
pub fn line_text(code: &Checked, line: &Line, out: &mut Vec<u8>) -> Result<(), AllocError>
    ensures appended { OnOk result (out.new.items ≡ out.old.items ++ line_text code.now line.now) }
    ensures stays { OnErr result (out.new.items ≡ out.old.items) }
{
    let before = out.len();
    let appended = whole_line(code, line, out);
    if appended.is_err() {
        out.truncate(before);
    }
    appended
}

/// Appends the lines of one step. It is refused only when out of memory, and then `out` is as it was.
pub fn lines_text(code: &Checked, lines: &[Line], out: &mut Vec<u8>) -> Result<(), AllocError>
    ensures appended { OnOk result (out.new.items ≡ out.old.items ++ lines_text code.now lines.now) }
    ensures stays { OnErr result (out.new.items ≡ out.old.items) }
{
    let before = out.len();
    let appended = whole_lines(code, lines, out);
    if appended.is_err() {
        out.truncate(before);
    }
    appended
}
