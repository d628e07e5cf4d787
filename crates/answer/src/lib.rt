// What a call that scores a family answers, whatever its refusals are: a report or one refusal.
#![tactic(auto)]

ghost use Rattle.std.specs.Prelude.{◌≡◌};
ghost use Rattle.answer.specs.Outcome.{number_of};

use refusals::Refusal;

// How many bytes the report has, or why there is none.
pub type Answer = Result<usize, Refusal>;

// The number that tells an answer: a report's bytes, which are never as few as a refusal's number. (A function and no `From`: the rules and C have one number
// for reports and refusals, and promises cite it by this name.)
pub fn number(answer: Answer) -> usize
    ensures { result ≡ number_of answer }
{
    match answer {
        Ok(bytes) => bytes,
        Err(refusal) => refusal.number() as usize,
    }
}
