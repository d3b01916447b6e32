// An answer without the trapped stack.
ghost use Rattle.std.specs.Prelude.{◌≡◌};
ghost use Rattle.client_hooks.specs.Replies.{answer_in, end_of, stack_of};
ghost use Rattle.client_hooks.specs.Plans.{end_planned, planned};

use crate::notes::{Notes, Watches};
use crate::reply::{ClassedValue, Edit, Reply, ReplyEnd, With};
use stacks::ReadyStack;

/// How an answer ends, without the stack that is handed back.
#[derive(Drop)]
pub enum End {
    /// The trapped stack is entered.
    Resume(With),
    /// Another stack is entered, and the trapped one stays ready. The target may be the trapped one.
    Rebind { target: ClassedValue, with: With },
    /// The thread ends, and the trapped stack stays ready.
    Exit,
    /// The run ends.
    Stop,
}

impl End {
    /// With the stack that is handed back.
    fn onto(self, stack: ReadyStack) -> ReplyEnd
        ensures end { end_of result ≡ end_planned self }
        ensures stack { stack_of result ≡ stack }
    {
        match self {
            End::Resume(with) => ReplyEnd::Resume { stack, with },
            End::Rebind { target, with } => ReplyEnd::Rebind {
                stack,
                target,
                with,
            },
            End::Exit => ReplyEnd::Exit { stack },
            End::Stop => ReplyEnd::Stop { stack },
        }
    }
}

impl ReplyEnd {
    /// The end, and the stack that is handed back.
    fn apart(self) -> (End, ReadyStack)
        ensures end { end_planned result.0 ≡ end_of self }
        ensures stack { result.1 ≡ stack_of self }
    {
        match self {
            ReplyEnd::Resume { stack, with } => (End::Resume(with), stack),
            ReplyEnd::Rebind {
                stack,
                target,
                with,
            } => (End::Rebind { target, with }, stack),
            ReplyEnd::Exit { stack } => (End::Exit, stack),
            ReplyEnd::Stop { stack } => (End::Stop, stack),
        }
    }
}

/// An answer, without the stack that is handed back.
#[derive(Drop)]
pub struct Plan {
    /// What is recorded, in order.
    pub notes: Notes,
    /// Which watchpoints are enabled or not from then on, in order.
    pub watches: Watches,
    /// What is done to the frames of the trapped stack after that.
    pub edit: Edit,
    pub end: End,
}

impl Plan {
    /// With the stack that is handed back.
    pub fn onto(self, stack: ReadyStack) -> Reply
        ensures answer { answer_in result ≡ planned self }
        ensures stack { stack_of result.end ≡ stack }
    {
        let end = self.end.onto(stack);
        Reply {
            notes: self.notes,
            watches: self.watches,
            edit: self.edit,
            end,
        }
    }
}

impl Reply {
    /// The answer, and the stack that is handed back.
    pub fn apart(self) -> (Plan, ReadyStack)
        ensures answer { planned result.0 ≡ answer_in self }
        ensures stack { result.1 ≡ stack_of self.end }
    {
        let (end, stack) = self.end.apart();
        let plan = Plan {
            notes: self.notes,
            watches: self.watches,
            edit: self.edit,
            end,
        };
        (plan, stack)
    }
}
