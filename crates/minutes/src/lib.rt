// Seconds in whole minutes: one rule for the time of a way and for the lateness on a job card (document 01, "Job card"; document 02, W1).
#![tactic(auto)]

ghost use Rattle.std.specs.Prelude.{◌≡◌};
ghost use Rattle.minutes.specs.Minutes.{nearest, minutes_of};

// The nearest minute of a signed number of seconds; an exact half goes to the even one. Quotient and remainder are rounded
// toward zero, so both signs are alike, and no sum is made that could wrap.
#[tactic(auto, using(crate::proofs::Signed::up_held, crate::proofs::Signed::down_held, crate::proofs::Signed::less_held))]
pub fn signed_minutes(seconds: i64) -> i64
    ensures { result ≡ minutes_of seconds }
{
    let minutes = seconds / 60;
    let rest = seconds % 60;
    if rest > 30 {
        return minutes + 1;
    }
    if rest < -30 {
        return minutes - 1;
    }
    if rest == 30 || rest == -30 {
        return minutes + minutes % 2;
    }
    minutes
}

// The same for a sum of seconds, which has no sign.
pub fn whole_minutes(seconds: u32) -> u32
    ensures { result ≡ nearest seconds }
{
    signed_minutes(seconds as i64) as u32
}
