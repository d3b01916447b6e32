// Clients whose answers are a function of what they are shown and of what they stand for.
ghost use Rattle.std.specs.Prelude.{◌≡◌, Option, Some};
ghost use Rattle.check_tables.specs.declared.tables.Tables.{Tables};
ghost use Rattle.mu_model.specs.Clients.{Answer, Client};
ghost use Rattle.mu_model.specs.Outcomes.{View};
ghost use Rattle.client_hooks.specs.Ways.{Way};

use crate::client::Client;
use crate::hook::{Handler, Hook};

/// A client that stands for one of the abstract machine, so that a run is a function of what it is given. Its type has a way of answering:
/// the answer is a function of the tables of the bundle, of what is shown at the trap, and of the client of the abstract machine that it
/// stands for. What that client is past the answer is a function of that client alone.
///
/// The way is an item of the trait, which no value holds: contracts see the client as a part of the machine's value, and a value has to
/// have a decidable equality, which functions have not. What a way needs to know of a client is data in what the client stands for: a list
/// of script entries, which a way may read as it likes. A script answers by its entries (`by_entries`), one for each trap, and then it stops
/// the run, or passes zero and NULL at each trap.
///
/// The number of the trapped stack is no part of the view, so a client that answers by that number is not admitted: its answers are no
/// function of what is shown. It may answer by the thread, by the watchpoint, by the types that are asked, and by the frames.
///
/// A hook is `Determined` where its handler is a `DeterminedHandler`, so a user's own handler is run by the machine. A user's own client
/// has an impl of this trait itself.
pub trait Determined: Client {
    /// How clients of this type answer.
    ghost way: { Way };

    /// The client of the abstract machine that it stands for.
    ghost stands_for: { Self → Client };

    /// It may give the answer of that one, and no other.
    ghost answers: { (k : Self) (p : Tables) (view : View) (o : Option Answer) → Self.may k p view o → o ≡ way.answer p view (stands_for k) };

    /// Past an answer, it stands for that one past its answer.
    ghost goes_on: { (k l : Self) → Self.advances k l → stands_for l ≡ way.past (stands_for k) };
}

/// A handler whose answers are a function of what it is shown and of what it stands for. The hook that stores it is `Determined`, and so
/// the machine takes it. A library's user has an impl of this trait for a handler of his own.
pub trait DeterminedHandler: Handler {
    /// How hooks with handlers of this type answer.
    ghost way: { Way };

    /// The client of the abstract machine that the hook with this handler stands for.
    ghost stands_for: { Self → Client };

    /// Each answer that it may give is the one of that client.
    ghost answers: { (h : Self) (p : Tables) (view : View) (a : Answer) → Self.promises h p view a → Some a ≡ way.answer p view (stands_for h) };

    /// A hook stays as it is, so past an answer that client is as it was.
    ghost stays: { (h : Self) → stands_for h ≡ way.past (stands_for h) };
}

/// A hook stands for what its handler does.
impl<H: DeterminedHandler> Determined for Hook<H> {
    ghost use Rattle.std.proofs.Common.{◌∙◌, ap};

    ghost way = { H.way };

    ghost stands_for = { λ k. H.stands_for k.handler };

    ghost answers = { λ k p view _ m. m.1 ∙ H.answers k.handler p view m.0 m.2 };

    ghost goes_on = { λ k _ same. ap (λ h. H.stands_for h.handler) same ∙ H.stays k.handler };
}
