//! What answers requests, and can be saved.
ghost use Rattle.std.specs.Prelude.{◌≡◌, ℕ, List, Option, Some, IfOk, false};
ghost use Rattle.std.specs.Option.{ForSome};
ghost use Rattle.rp_protocol.specs.declared.reply.Reply.{Reply as Told};
ghost use Rattle.rp_serve.specs.Changes.{may_change};
ghost use Rattle.rp_serve.specs.Rounds.{kept_bytes};
ghost use Rattle.rp_protocol.specs.declared.request.Request.{Request as Asked};

use crate::answers::Answers;
use std::alloc::AllocError;

/// What can be saved as bytes, and go back to them.
pub trait Keeps: Answers {
    /// These bytes are what is saved of it.
    ghost is_saved: { Self → List ℕ → Type 0 };

    /// It can go back to these bytes.
    ghost can_go_back: { Self → List ℕ → Type 0 };

    /// What it is after it went back to these bytes, or to its beginning where there are none.
    ghost goes_back: { Self → Option (List ℕ) → Self → Type 0 };

    /// It can go back to what it is saved as.
    ghost saved_stays: { (node : Self) (bytes : List ℕ) → is_saved node bytes → can_go_back node bytes };

    /// And it can go back again.
    ghost back_again: { (old new : Self) (bytes : List ℕ) →
        can_go_back old bytes → goes_back old (Some bytes) new → can_go_back new bytes };

    /// The bytes that it can go back to.
    fn save(&self) -> Result<Vec<u8>, AllocError>
        ensures { IfOk result (λ bytes. is_saved self.now bytes.items) };

    /// Goes back to the bytes, or to its beginning.
    fn go_back(self, saved: &Option<Vec<u8>>) -> Result<Self, AllocError>
        requires { ForSome saved.now (λ bytes. can_go_back self bytes.items) }
        ensures { IfOk result (λ node. goes_back self (kept_bytes saved.now) node) };

    /// A request leaves what it can go back to.
    ghost keeps: { (old : Self) (request : Asked) (reply : Told) (new : Self) (bytes : List ℕ) →
        Self.step old request reply new → can_go_back old bytes → can_go_back new bytes };

    /// So does one for which memory was refused.
    ghost keeps_cut: { (old : Self) (request : Asked) (new : Self) (bytes : List ℕ) →
        Self.cut_short old request new → can_go_back old bytes → can_go_back new bytes };

    /// A request leaves it as it was, where the reply says so.
    ghost unchanged: { (old : Self) (request : Asked) (reply : Told) (new : Self) →
        Self.step old request reply new → may_change reply ≡ false → new ≡ old };
}
