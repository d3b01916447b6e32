// The runs of a search.
ghost use Rattle.std.specs.Prelude.{◌≡◌, ◌+◌, Some, None, Ok, IfOk, OnOk, true, false};
ghost use Rattle.odometer.specs.Trees.{leaf};
ghost use Rattle.odometer.specs.Odometer.{path};
ghost use Rattle.mu_model.specs.Programs.{named};
ghost use Rattle.loaded_programs.specs.Laws.{IsScripted};
ghost use Rattle.mu_texts.specs.Answer.{loaded, client_part};
ghost use Rattle.mu_texts.specs.Comes.{IsFilled};
ghost use Rattle.run_search.specs.Steps.{AllEnd};
ghost use Rattle.run_search.specs.Given.{tree_of, shows_of, BeginsAt, IsReady};

use crate::playing::play_whole;
use checked_code::Checked;
use client_script::RunClient;
use mem_axioms::Rule;
use mem_views::ViewMemory;
use mu_base::Ids;
use mu_step::Machine;
use mu_texts::{Stop, judge_client, judge_heap_script};
use mu_threads::Schedule;
use odometer::{Pick, Play};
use run_start::RunInputs;
use seen_runs::{Final, seen_text};
use std::alloc::{AllocError, Global};
use std::marker::Model;
use typed_heap::Heap;

/// What each run is given, but for its picks: the function that it begins with, the texts of the scripts, whether the client passes zero
/// and NULL after its last entry, the rule of release sequences, and how many cells and steps there may be.
#[derive(Drop)]
pub struct Scripts {
    pub entry: u32,
    pub hail: Vec<u8>,
    pub client: Vec<u8>,
    pub auto: bool,
    pub rule: Rule,
    pub cells: u32,
    pub budget: u32,
}

/// What makes the runs of a checked bundle. Each run has a machine of its own, which is dropped after it.
#[derive(Drop)]
pub struct Player<'a> {
    alloc: Global,
    code: &'a Checked,
    scripts: Scripts,
    finals: Vec<Final>,
}

impl<'a> Model for Player<'a> {
    ghost use Rattle.run_search.specs.Steps.{AllEnd};
    ghost use Rattle.run_search.specs.Given.{Given};

    ghost Value = { Given };

    ghost view = { λ p. record { bundle = p.code.now; entry = p.scripts.entry; hail = p.scripts.hail.items; client = p.scripts.client.items; auto = p.scripts.auto; rule = p.scripts.rule; cells = p.scripts.cells; budget = p.scripts.budget; finals = p.finals.items } };
}

// Writes the numbers into the list.
fn copy_numbers(numbers: &[u32], list: &mut Vec<u32>) -> Result<(), AllocError>
    ensures { OnOk result (list.new.items ≡ numbers.now) }
{
    list.clear();
    list.extend_from_slice(numbers)?;
    Ok(())
}

impl<'a> Player<'a> {
    /// A player of these runs. `finals` are the globals whose last values are shown.
    pub fn new(alloc: Global, code: &'a Checked, scripts: Scripts, finals: Vec<Final>) -> Player<'a>
        ensures { result ≡ record { bundle = code.now; entry = scripts.entry; hail = scripts.hail.items; client = scripts.client.items; auto = scripts.auto; rule = scripts.rule; cells = scripts.cells; budget = scripts.budget; finals = finals.items } }
    {
        Player {
            alloc,
            code,
            scripts,
            finals,
        }
    }

    // The numbers as a schedule.
    fn schedule(&self, numbers: &[u32]) -> Result<Schedule, AllocError>
        ensures { IfOk result (λ picks. picks ≡ numbers.now) }
    {
        let mut list = Vec::new(self.alloc);
        copy_numbers(numbers, &mut list)?;
        Ok(Schedule::from_numbers(Ids::from_vec(list)))
    }

    // The heap that each run begins with.
    #[tactic(auto, using(crate::proofs::Beginning::scripts))]
    fn heap(&self) -> Result<Heap, AllocError>
        requires { IsReady self.now }
        ensures objects { IfOk result (λ heap. loaded self.now.bundle self.now.cells self.now.hail ≡ Ok heap.objects) }
        ensures filled { IfOk result (IsFilled self.now.bundle self.now.cells) }
    {
        let scripts = &self.scripts;
        let hail = scripts.hail.as_slice();
        match judge_heap_script(self.alloc, hail, self.code, scripts.cells) {
            Ok(heap) => Ok(heap),
            Err(Stop::Line(_text, _status)) => unreachable!(),
            Err(Stop::Memory) => Err(AllocError),
        }
    }

    // The client of each run.
    #[tactic(auto, using(crate::proofs::Beginning::scripts))]
    fn client(&self) -> Result<RunClient, AllocError>
        requires { IsReady self.now }
        ensures client { IfOk result (λ client. client_part self.now.bundle self.now.auto self.now.client ≡ Ok client) }
        ensures scripted { IfOk result (IsScripted self.now.bundle) }
    {
        let scripts = &self.scripts;
        let script = scripts.client.as_slice();
        match judge_client(self.alloc, script, self.code, scripts.auto) {
            Ok(client) => Ok(client),
            Err(Stop::Line(_text, _status)) => unreachable!(),
            Err(Stop::Memory) => Err(AllocError),
        }
    }

    // A machine at the beginning of a run with these picks.
    fn begin(&self, picks: Schedule) -> Result<Machine<'a, ViewMemory, RunClient>, AllocError>
        requires { IsReady self.now }
        ensures bundle { IfOk result (λ m. m.bundle ≡ self.now.bundle) }
        ensures fresh { IfOk result (λ m. m.ended ≡ false) }
        ensures first { IfOk result (λ m. BeginsAt self.now picks m.configuration) }
        ensures ends { IfOk result (λ m. AllEnd (named self.now.bundle) (self.now.budget + 1) m.configuration) }
        ensures picks { IfOk result (λ m. m.configuration.picks ≡ picks) }
    {
        let scripts = &self.scripts;
        let heap = self.heap()?;
        let client = self.client()?;
        let memory = ViewMemory::new(self.alloc, scripts.rule);
        let inputs = RunInputs {
            heap,
            memory,
            client,
            picks,
            budget: scripts.budget,
        };
        Machine::new(self.alloc, self.code, scripts.entry, inputs)
    }

    // Makes the run of these numbers in which local steps come first, and writes what is seen of it and the schedule that it is the run of.
    // False where it comes to its budget.
    fn run(
        &self,
        numbers: &[u32],
        made: &mut Vec<Pick>,
        text: &mut Vec<u8>,
        schedule: &mut Vec<u32>,
    ) -> Result<bool, AllocError>
        requires { IsReady self.now }
        ensures path { OnOk result (made.new.items ≡ path (tree_of self.now) numbers.now) }
        ensures text { IfOk result (λ says. says ≡ true → leaf (tree_of self.now) numbers.now ≡ Some text.new.items) }
        ensures silent { IfOk result (λ says. says ≡ false → leaf (tree_of self.now) numbers.now ≡ None) }
        ensures shown { IfOk result (λ says. says ≡ true → shows_of self.now schedule.new.items ≡ Some text.new.items) }
    {
        made.clear();
        schedule.clear();
        let picks = self.schedule(numbers)?;
        let machine = self.begin(picks)?;
        let mut kept = Vec::new(self.alloc);
        let steps = self.scripts.budget as u64 + 1;
        let ending = play_whole(
            self.alloc, self.code, machine, steps, numbers, made, &mut kept, schedule,
        )?;
        let finals = self.finals.as_slice();
        let lines = kept.as_slice();
        seen_text(self.code, finals, lines, &ending, text)
    }
}

impl<'a> Play for Player<'a> {
    ghost tree = { λ p. tree_of p };

    ghost shows = { λ p. shows_of p };

    ghost ready = { λ p. IsReady p };

    fn play(
        &mut self,
        numbers: &[u32],
        made: &mut Vec<Pick>,
        text: &mut Vec<u8>,
        schedule: &mut Vec<u32>,
    ) -> Result<bool, AllocError> {
        self.run(numbers, made, text, schedule)
    }
}
