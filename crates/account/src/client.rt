//! Somebody who keeps an account: chooses each call and is told each answer.

ghost use Rattle.std.specs.Prelude.{List, [], ◌∷◌, Some, Option};
ghost use Rattle.account.specs.declared.client.Call.{Call};
ghost use Rattle.account.specs.Histories.{Turn, turn};

use quantity::{Power, Refusal};

/// A call of an account.
#[derive(Drop)]
pub enum Call<R> {
    Replace(R),
    Add(Power),
    Total,
}

/// What a call answered.
// Not a `Result<Option<Power>, Refusal>`: a client would have to know which calls answer no power.
#[derive(Clone, Copy)]
pub enum Answer {
    Done,
    Refused(Refusal),
    Told(Power),
}

/// A client of an account with rules of the kind R. It may be anybody: it chooses from what it was told, and when to stop.
pub trait AccountClient<R> {
    /// The client may have been told this history, the newest turn first.
    ghost told: { List (Turn R) → Self → Type 0 };

    /// The client may have chosen this call, or to stop, after this history.
    ghost chose: { Option (Call R) → List (Turn R) → Self → Type 0 };

    /// The next call, or none to stop.
    fn choose(&mut self) -> Option<Call<R>>
        ensures { (history : List (Turn R)) → told history self.old → chose result history self.new };

    /// What the call answered.
    fn note(&mut self, answer: Answer)
        ensures { (call : Call R) (history : List (Turn R)) → chose (Some call) history self.old → told (turn call answer ∷ history) self.new };
}
