// What a check before the walk answers.
#![tactic(auto)]

ghost use Rattle.std.specs.Prelude.{◌≡◌};
ghost use Rattle.model.specs.Answers.{refusal, not_walked};

use model::{Errno, NO_DETAIL, NOT_WALKED, Refusal};

// Both counts are 0 before the walk, and only an unknown bit has a detail (RULES 5.4, 5.5).
pub fn refuse(errno: Errno) -> Result<(), Refusal>
    ensures { result ≡ Err (refusal errno not_walked) }
{
    Err(Refusal {
        errno,
        detail: NO_DETAIL,
        progress: NOT_WALKED,
    })
}
