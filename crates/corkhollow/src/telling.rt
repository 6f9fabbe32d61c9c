// What a function for C makes of an operation's answer (include/corkhollow.h): it returns 0 or the refusal's number, and tells a result
// through what C lends.
ghost use Rattle.std.specs.Prelude.{◌≡◌};
ghost use Rattle.fields.specs.Refusal.{answered};
ghost use Rattle.corkhollow.specs.Calls.{returned, told};

use fields::Refusal;

// 0, or the refusal's number.
#[tactic(auto, unfolding(crate::specs::Calls::returned))]
pub(crate) fn number<T: Copy>(answer: Result<T, Refusal>) -> u32
    ensures { result ≡ returned (answered answer) }
{
    match answer {
        Ok(_) => 0,
        Err(why) => u32::from(why),
    }
}

// The same, and the result is told; on a refusal the place is as it was.
#[tactic(auto, unfolding(crate::specs::Calls::returned, crate::specs::Calls::told))]
pub(crate) fn tell<T: Copy>(answer: Result<T, Refusal>, place: &mut T) -> u32
    ensures number { result ≡ returned (answered answer) }
    ensures told { place.new ≡ told (λ a. a) (answered answer) place.old }
{
    match answer {
        Ok(a) => {
            *place = a;
            0
        }
        Err(why) => u32::from(why),
    }
}
