// What a call answers: its value, or why it is refused, and the number for each (docs/FORMATS.md, Answer numbers). Every refusal is one of these.
#![tactic(auto)]

ghost use Rattle.std.specs.Prelude.{◌≡◌};
ghost use Rattle.answer.specs.Answer.{refusal_number, answer_number, answer_value};

// Why a call is refused. No refusal changes a lent byte.
#[derive(Clone, Copy)]
pub enum Refusal {
    NoStore = 1,
    BadGeometry,
    OutsideMemory,
    NoOp,
    IllFormed,
    WrongBuffer,
    NoKind,
    WrongWriteSize,
    NothingFound,
}

// What a call answers: `()` where it has nothing beside its number.
pub type Answer<T> = Result<T, Refusal>;

impl Refusal {
    // As C and Rust see it.
    pub fn number(self) -> u64
        ensures { result ≡ refusal_number self }
    {
        self as u64
    }
}

// An answer's number: 0 where the call was done.
pub fn number<T>(answer: &Answer<T>) -> u64
    ensures { result ≡ answer_number answer.now }
{
    match answer {
        Ok(_) => 0,
        Err(why) => why.number(),
    }
}

// The number beside an answer's: 0 beside every number but 0.
pub fn value(answer: Answer<u64>) -> u64
    ensures { result ≡ answer_value answer }
{
    answer.unwrap_or(0)
}
