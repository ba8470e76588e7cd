// What the page of a run says before the room that was lent: the refusal, and the number of answers.
#![tactic(auto)]

ghost use Rattle.std.specs.Prelude.{◌≡◌};
ghost use Rattle.run_page.specs.RunPage.{refusal_in, answers_in};

use refusal::Refusal;

// The refusal of a run, 0 where there is none.
pub fn refusal_in(ran: Result<usize, Refusal>) -> u8
    ensures { result ≡ refusal_in ran }
{
    match ran {
        Ok(_) => 0,
        Err(refusal) => refusal.number(),
    }
}

// How many records were answered.
pub fn answers_in(ran: Result<usize, Refusal>) -> usize
    ensures { result ≡ answers_in ran }
{
    ran.unwrap_or(0)
}
