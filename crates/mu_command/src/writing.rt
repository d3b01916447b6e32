// Puts pieces to the sink.
ghost use Rattle.std.specs.Prelude.{◌≡◌, ◌≤◌, [], ◌∷◌};
ghost use Rattle.mu_base.specs.Faults.{Rose};
ghost use Rattle.mu_texts.specs.Answer.{line, in_one_piece};
ghost use Rattle.mu_command.specs.Written.{Writes, IsWhole, stopped};

use mu_base::{PutFault, Sink, Status};

/// The status of the program where a put failed.
pub fn stopped(fault: PutFault) -> Status
    ensures { result ≡ stopped fault }
{
    match fault {
        PutFault::Fault => Status::SinkFault,
        PutFault::Memory => Status::Memory,
    }
}

/// Writes a piece, also an empty one.
pub fn put_text<S: Sink>(out: &mut S, text: Vec<u8>, status: Status) -> Status
    requires { IsWhole status }
    ensures writes { Writes (record { pieces = text.items ∷ []; status = status }) (S.written out.old) (S.written out.new) (S.ends out.old) (S.ends out.new) result }
    ensures never_falls { S.faults out.old ≤ S.faults out.new }
    ensures fault { result ≡ Status.SinkFault → Rose (S.faults out.old) (S.faults out.new) }
{
    match out.put(&text) {
        Ok(()) => status,
        Err(fault) => stopped(fault),
    }
}

/// Writes a whole text, in one piece. An empty text has no piece, so it is not put, and no sink can fail at it.
#[tactic(auto, using(crate::proofs::Puts::one_piece))]
pub fn put_whole_text<S: Sink>(out: &mut S, text: Vec<u8>, status: Status) -> Status
    requires { IsWhole status }
    ensures writes { Writes (record { pieces = in_one_piece text.items; status = status }) (S.written out.old) (S.written out.new) (S.ends out.old) (S.ends out.new) result }
    ensures never_falls { S.faults out.old ≤ S.faults out.new }
    ensures fault { result ≡ Status.SinkFault → Rose (S.faults out.old) (S.faults out.new) }
{
    if text.is_empty() {
        status
    } else {
        put_text(out, text, status)
    }
}

/// Writes one line.
pub fn put_line<S: Sink>(out: &mut S, text: Vec<u8>, status: Status) -> Status
    requires { IsWhole status }
    ensures writes { Writes (line text.items status) (S.written out.old) (S.written out.new) (S.ends out.old) (S.ends out.new) result }
    ensures never_falls { S.faults out.old ≤ S.faults out.new }
    ensures fault { result ≡ Status.SinkFault → Rose (S.faults out.old) (S.faults out.new) }
{
    let mut text = text;
    if text.push(b'\n').is_err() {
        return Status::Memory;
    }
    put_text(out, text, status)
}
