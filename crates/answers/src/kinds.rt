// Of which kind an answer is (construction, specs/Answers): run, refused.
ghost use Rattle.std.specs.Prelude.{◌≡◌};
ghost use Rattle.construction.specs.Answers.{is_run, is_refused};

use construction::answers::Answer;

pub fn is_run(answer: Answer) -> bool
    ensures { result ≡ is_run answer }
{
    matches!(answer, Answer::Run)
}

pub fn is_refused(answer: Answer) -> bool
    ensures { result ≡ is_refused answer }
{
    matches!(answer, Answer::Refused(_) | Answer::RefusedAt { .. })
}
