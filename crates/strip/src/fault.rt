// Refusals of strip reading.
ghost use Rattle.std.specs.Prelude.{◌≡◌};
ghost use Rattle.strip.specs.Outcomes.{strip_code};
ghost use Rattle.strip.specs.Questions.{question_code};

// Why bytes are no strip.
#[derive(Clone, Copy, PartialEq, Eq, Debug)]
pub enum StripFault {
    // There are fewer than two bytes.
    TooFewBytes = 18,
    // The count is above 32,768.
    TooManyReadings = 19,
    // The length is another than the count needs.
    WrongLength = 20,
    // The two bits of each reading are not balanced.
    Unbalanced = 21,
    // A filling bit is one.
    Filling = 22,
}

impl StripFault {
    pub fn code(self) -> u8
        ensures { result ≡ strip_code self }
    {
        self as u8
    }
}

// Why a question to a strip has no answer.
#[derive(Clone, Copy, PartialEq, Eq, Debug)]
pub enum QuestionFault {
    // The range's first place is above its last.
    Backwards = 5,
    // The range's last place is not below the count.
    Beyond = 6,
}

impl QuestionFault {
    pub fn code(self) -> u8
        ensures { result ≡ question_code self }
    {
        self as u8
    }
}
