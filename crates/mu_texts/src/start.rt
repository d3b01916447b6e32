// A run that is to begin.
use client_script::RunClient;
use mem_axioms::Rule;
use mu_threads::Schedule;
use std::marker::Model;
use typed_heap::Heap;

/// A run that is to begin: the number of its function; the heap, with the objects of the globals and those that a script made; the
/// client; the schedule; the rule of release sequences; how many cells may be made beside those of the globals, those of the heap's
/// script among them; and how many steps.
#[derive(Drop)]
pub struct Start {
    pub entry: u32,
    pub heap: Heap,
    pub client: RunClient,
    pub picks: Schedule,
    pub rule: Rule,
    pub cells: u32,
    pub budget: u32,
}

impl Model for Start {
    ghost use Rattle.mu_texts.specs.Start.{Started};

    ghost Value = { Started };

    ghost view = { λ s. record { entry = s.entry; setting = record { objects = s.heap.objects; client = s.client; picks = s.picks; cells = s.cells; budget = s.budget; rule = s.rule }; left = s.heap.left } };
}
