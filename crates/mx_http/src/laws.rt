//! What holds of the requests of a connection, whoever reads them.
ghost use Rattle.std.specs.Prelude.{◌≡◌, ◌⊎◌, ◌++◌, ℕ, List};
ghost use Rattle.mx_http.specs.declared.call.Call.{Call};
ghost use Rattle.mx_http.specs.declared.fault.HttpFault.{HttpFault};
ghost use Rattle.mx_http.specs.Calls.{HasFault, IsCall, IsBlank, IsUnfinished, IsFaulty, IsRest, Splits};

/// The requests that bytes begin with, and the rest behind them, are determined by the bytes: bytes
/// that begin with a whole request are no rest, and bytes that are no request, whatever follows,
/// are neither a part of one nor blank, have one fault, and begin with no request.
pub fn calls_are_determined()
    ensures unique { (bytes : List ℕ) (calls others : List Call) (rest end : List ℕ) → Splits bytes calls rest → Splits bytes others end → (calls ≡ others) × (rest ≡ end) }
    ensures whole { (front more : List ℕ) (call : Call) → IsCall front call → IsRest (front ++ more) → ⊥ }
    ensures fault { (bytes : List ℕ) → IsFaulty bytes → IsUnfinished bytes ⊎ IsBlank bytes → ⊥ }
    ensures one { (bytes : List ℕ) (fault other : HttpFault) → HasFault fault bytes → HasFault other bytes → fault ≡ other }
    ensures lasts { (bytes more front after : List ℕ) (call : Call) → IsFaulty bytes → bytes ++ more ≡ front ++ after → IsCall front call → ⊥ }
{}
