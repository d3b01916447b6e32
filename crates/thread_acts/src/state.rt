// The state of a run.
ghost use Rattle.std.specs.Prelude.{◌≡◌, ◌<◌, [], None, length, slice_set, true};
ghost use Rattle.frames.specs.Chains.{frames_in};
ghost use Rattle.mu_model.specs.declared.endings.StepEnd.TheVariants.{Went};
ghost use Rattle.mu_model.specs.Outcomes.{End};
ghost use Rattle.mu_model.specs.Configuration.{Active, Dead};
ghost use Rattle.seats.specs.Seats.{IsOn};
ghost use Rattle.run_state.specs.Held.{Held};
ghost use Rattle.run_state.specs.Outcome.{Stays};
ghost use Rattle.run_state.specs.Acting.{answers, went_on, undefined_at, thread_ended};
ghost use Rattle.run_state.specs.Hand.{put_down};

use client_hooks::Determined;
use frames::Frames;
use mem_axioms::Memory;
use mu_model::{Case, Ending, Lines, StepEnd};
use mu_threads::Schedule;
use run_state::objects::end_frames;
use seats::Seats;
use std::alloc::Global;
use std::marker::Model;
use trap_answers::Watched;
use typed_heap::Heap;

/// The threads and stacks, the objects, the memory, the watchpoints that are enabled, the client, what is left of the schedule, and how
/// many events were logged and how many steps made, and may be. The frames of the thread that made the last step are in
/// hand, where it is left; else those in hand mean nothing. It keeps its allocator, so only `start` asks for one.
#[derive(Drop)]
pub struct State<M: Memory, C: Determined> {
    pub alloc: Global,
    pub thread: u32,
    pub stack: u32,
    pub frames: Frames,
    pub left: bool,
    pub seats: Seats,
    pub heap: Heap,
    pub memory: M,
    pub watched: Watched,
    pub client: C,
    pub picks: Schedule,
    // How many numbers of the schedule this step has looked at, which are taken once it is made.
    pub skip: u32,
    pub events: u32,
    pub steps: u32,
    pub budget: u32,
}

impl<M: Memory, C: Determined> Model for State<M, C> {
    ghost use Rattle.std.specs.Prelude.{◌≡◌, ◌*◌, ◌≤◌, length};
    ghost use Rattle.run_state.specs.Held.{Held};
    ghost use Rattle.run_state.specs.Hand.{IsSound};
    ghost use Rattle.run_state.specs.Remembering.{initials};
    ghost use Rattle.frames.specs.Chains.{chain_of};

    ghost Value = { Held };

    ghost view = { λ s. record { thread = s.thread; stack = s.stack; frames = chain_of s.frames; left = s.left; seats = s.seats; objects = s.heap.objects; log = M.log s.memory; watched = s.watched.enabled; client = C.stands_for s.client; picks = s.picks; skip = s.skip; rule = M.rule s.memory; cells = s.heap.left; steps = s.steps; budget = s.budget } };

    ghost invariant = { λ s. (M.objects s.memory ≡ initials s.heap.objects) × (s.events ≡ length (M.log s.memory)) × (s.events ≤ 100 * s.steps) × (s.steps ≤ s.budget) × (s.budget ≤ 1000000) × IsSound s.left s.thread s.stack s.seats (M.log s.memory) };
}

/// A run ends, and its last step wrote nothing.
#[tactic(auto, using(run_state::specs::StepLaws::answers_end))]
pub fn ended(alloc: Global, ending: Ending) -> StepEnd
    ensures is { (s : Held) → answers result s ≡ End [] ending }
    ensures end { (s : Held) → Stays result s s }
{
    StepEnd::Ended(Lines::new(alloc), ending)
}

/// A thread that has these frames ends, and its stack dies. Its frames come back.
#[tactic(auto, using(run_state::specs::Hand::frames_back))]
fn end_seat(seats: &mut Seats, thread: u32, stack: u32, frames: &mut Frames) -> Frames
    requires on { IsOn seats.old thread stack }
    requires within { stack < length seats.old.stacks }
    ensures frames { frames_in result ≡ frames_in frames.old }
    ensures seats { seats.new ≡ record seats.old { threads = slice_set seats.old.threads thread None; stacks = slice_set (slice_set seats.old.stacks stack (Active thread (frames_in frames.old))) stack Dead } }
{
    seats.exchange(thread, stack, frames);
    seats.end(thread, stack)
}

impl<M: Memory, C: Determined> State<M, C> {
    /// A step was made that wrote nothing.
    #[tactic(auto, using(run_state::specs::StepLaws::answers_on))]
    pub(crate) fn count(&mut self)
        requires left { self.old.left ≡ true }
        requires room { self.old.steps < self.old.budget }
        ensures { answers (Went []) self.new ≡ went_on self.old }
    {
        self.steps += 1;
    }

    /// The same, with what is said of the step.
    #[tactic(auto, using(run_state::specs::StepLaws::answers_on))]
    pub(crate) fn went(&mut self) -> StepEnd
        requires left { self.old.left ≡ true }
        requires room { self.old.steps < self.old.budget }
        ensures on { answers result self.new ≡ went_on self.old }
        ensures end { (s t : Held) → Stays result s t }
    {
        self.steps += 1;
        StepEnd::Went(Lines::new(self.alloc))
    }

    /// The undefined case is the ending of the run, at the thread's instruction.
    pub fn case_ending(&self, case: Case) -> Ending
        ensures { result ≡ undefined_at self.now case }
    {
        let top = self.frames.top();
        Ending::Undefined {
            case,
            thread: self.thread,
            block: top.block,
            at: top.at,
            race: None,
        }
    }

    /// The thread's instruction has no meaning.
    pub fn undefined(&self, case: Case) -> StepEnd
        ensures is { (s : Held) → answers result s ≡ End [] (undefined_at self.now case) }
        ensures end { (s : Held) → Stays result s s }
    {
        ended(self.alloc, self.case_ending(case))
    }

    /// The frames in hand go back to their thread.
    #[tactic(auto, using(run_state::specs::Hand::hand_empty))]
    pub fn put_down(&mut self)
        requires left { self.old.left ≡ true }
        ensures { self.new ≡ put_down self.old self.new.frames }
    {
        self.seats
            .exchange(self.thread, self.stack, &mut self.frames);
        self.left = false;
    }

    /// The thread ends, and its stack dies with all of its frames.
    #[tactic(auto, using(run_state::specs::Hand::hand_ended))]
    pub(crate) fn end_thread(&mut self)
        requires left { self.old.left ≡ true }
        ensures { self.new ≡ thread_ended self.old self.new.frames }
    {
        let frames = end_seat(&mut self.seats, self.thread, self.stack, &mut self.frames);
        self.left = false;
        end_frames(&frames, &mut self.heap);
    }
}
