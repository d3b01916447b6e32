// Objects that are made.
ghost use Rattle.std.specs.Prelude.{◌≡◌, ◌≢◌, ◌-◌, ◌^◌, ◌<◌, IfOk, OnOk, OnErr, length, true};
ghost use Rattle.typed_heap.specs.Heap.{AreNarrow};
ghost use Rattle.mu_model.specs.declared.endings.Ending.TheVariants as endings;
ghost use Rattle.mu_model.specs.Outcomes.{Stuck};
ghost use Rattle.run_state.specs.Outcome.{Stays};
ghost use Rattle.run_state.specs.Acting.{answers, acting, faulting};
ghost use Rattle.object_acts.specs.Making.{graph_of, act_of};

use crate::state::State;
use checked_code::Checked;
use client_hooks::Determined;
use mem_axioms::Memory;
use mu_model::{Ending, StepEnd};
use mu_values::Slots;
use object_acts::making::{Making, Newest, give, new_object};
use std::alloc::AllocError;
use typed_heap::HeapFault;

impl<M: Memory, C: Determined> State<M, C> {
    /// The thread's instruction is refused so many cells, where so many are left. A number that a fault of the heap does not tell
    /// exactly is out of memory.
    fn refuse_cells(
        &mut self,
        code: &Checked,
        asked: u128,
        left: u32,
        out: &mut Slots,
    ) -> Result<StepEnd, AllocError>
        requires left { self.old.left ≡ true }
        requires room { self.old.steps < self.old.budget }
        requires there { asked < 2 ^ 128 - 1 → faulting code.now self.old (endings.HeapFull self.old.thread asked left) ≢ Stuck }
        ensures exact { OnOk result (asked < 2 ^ 128 - 1) }
        ensures ok { IfOk result (λ end. answers end self.new ≡ faulting code.now self.old (endings.HeapFull self.old.thread asked left)) }
        ensures err { OnErr result (self.new ≡ self.old) }
        ensures stays { IfOk result (λ end. Stays end self.old self.new) }
    {
        if asked == u128::MAX {
            return Err(AllocError);
        }
        self.fault(
            code,
            Ending::HeapFull {
                thread: self.thread,
                asked,
                left,
            },
            out,
        )
    }

    /// The thread makes an object. Where no memory is found the state is as before; the lists may have changed.
    pub fn make(
        &mut self,
        code: &Checked,
        class: u32,
        making: Making,
        values: &mut Slots,
        out: &mut Slots,
    ) -> Result<StepEnd, AllocError>
        requires left { self.old.left ≡ true }
        requires room { self.old.steps < self.old.budget }
        requires narrow { AreNarrow (graph_of code.now) }
        requires class { class < length (graph_of code.now) }
        requires there { acting code.now self.old (act_of class making) ≢ Stuck }
        ensures ok { IfOk result (λ end. answers end self.new ≡ acting code.now self.old (act_of class making)) }
        ensures err { OnErr result (self.new ≡ self.old) }
        ensures stays { IfOk result (λ end. Stays end self.old self.new) }
    {
        match new_object(&mut self.heap, code, class, making) {
            Ok(number) => {
                let newest = Newest {
                    alloc: self.alloc,
                    heap: &self.heap,
                    number,
                    making,
                };
                let given = give(
                    code,
                    newest,
                    &mut self.memory,
                    &mut self.frames,
                    values,
                    out,
                );
                if let Err(refused) = given {
                    self.heap.take_back();
                    return Err(refused);
                }
                Ok(self.went())
            }
            Err(HeapFault::HeapFull { asked, left }) => {
                self.refuse_cells(code, asked, left, out)
            }
            Err(HeapFault::Memory) => Err(AllocError),
        }
    }
}
