// The answer for so many bytes of report, and the answer as numbers, for callers in other languages.
#![tactic(auto)]

ghost use Rattle.std.specs.Prelude.{◌≡◌, length};
ghost use Rattle.scope.specs.Lists.{Text};
ghost use Rattle.scope.specs.Answer.{fitted, said};

use scope::Answer;
use scope::refusal::Refusal;

// 11: the answer for a report of so many bytes and a buffer with room for so many.
#[tactic(auto, unfolding(scope::specs::Answer::fitted))]
pub fn fit(room: usize, bytes: usize) -> Answer
    ensures { (t : Text) → bytes ≡ length t → result ≡ (fitted room t).answer }
{
    if room < bytes {
        return Answer::refused(Refusal::Buffer, 0);
    }
    Answer::Report { long: bytes }
}

// The answer's number, 0 for a report; its line and the report's length through the last two.
#[tactic(auto, unfolding(scope::specs::Answer::said))]
pub fn tell(answer: Answer, line: &mut usize, length: &mut usize) -> u8
    ensures value { result ≡ (said answer).number }
    ensures line_after { line.new ≡ (said answer).line }
    ensures length_after { length.new ≡ (said answer).long }
{
    match answer {
        Answer::Report { long } => {
            *line = 0;
            *length = long;
            0
        }
        Answer::Refused { number, line: k } => {
            *line = k;
            *length = 0;
            number
        }
    }
}
