//! The machine that a lock goes round.
ghost use Rattle.std.specs.Prelude.{◌≡◌, ℕ, List};
ghost use Rattle.fq_model.specs.declared.event.Entry.{Entry};
ghost use Rattle.history_lock.specs.Histories.{Grows};

/// A machine keeps a history of its calls. `past` is that history, in order of time, and `frame` is the part that no
/// step changes. `allowed` says which calls may be made. `answers` says of a history, a caller, a call and a reply
/// which history follows: this history, or one entry more, which is the caller's.
pub trait Machine {
    /// A call.
    type Call;

    /// The reply to a call.
    type Reply;

    /// The part that no step changes, as plain data.
    type Frame;

    ghost past: { Self → List Entry };

    ghost frame: { Self → Self.Frame };

    ghost allowed: { Self.Frame → ℕ → Self.Call → Type 0 };

    ghost answers: { Self.Frame → List Entry → ℕ → Self.Call → Self.Reply → List Entry → Type 0 };

    /// Makes one call. `who` is the caller's number.
    fn step(&mut self, who: u32, call: Self::Call) -> Self::Reply
        requires { allowed (frame self.old) who call }
        ensures answers { answers (frame self.old) (past self.old) who call result (past self.new) }
        ensures frame { frame self.new ≡ frame self.old };

    ghost grows: { (like : Self.Frame) (P : List Entry) (who : ℕ) (call : Self.Call) (reply : Self.Reply)
        (P2 : List Entry) → answers like P who call reply P2 → Grows who P P2 };
}

/// A machine that answers questions about its history: a question changes nothing. `finds` says which answer is right.
pub trait Inspect: Machine {
    /// A question about the history.
    type Question;

    /// The answer to a question.
    type Finding;

    ghost finds: { Self.Frame → List Entry → Self.Question → Self.Finding → Type 0 };

    /// Answers the question.
    fn inspect(&self, question: Self::Question) -> Self::Finding
        ensures { finds (Self.frame self.now) (Self.past self.now) question result };
}
