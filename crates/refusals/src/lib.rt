// The refusals of documents 01 and 02, and the number of each. Assumes nothing.
#![tactic(auto)]

ghost use Rattle.std.specs.Prelude.{◌≡◌};
ghost use Rattle.refusals.specs.Refusals.{served, invalid, unfit, wrong_length, bad_symbol, bad_starts, uncovered, no_pattern, value_too_large, disagrees};
ghost use Rattle.refusals.specs.Refusals.{bad_payload, bad_record, bad_prescription, bad_depth, erased, no_majority, surplus_bytes, job_cancelled};
ghost use Rattle.refusals.specs.Refusals.{already_open, not_open, table_full, number_zero, not_cancelled, job_held, not_held, refusals};
ghost use Rattle.refusals.specs.Numbers.{number_of, answer_of};

// Why a call can't be served: both lists, in each document 01's and behind them document 02's.
#[derive(Clone, Copy, Debug, PartialEq, Eq)]
pub enum Refusal {
    // From the input.
    Invalid,
    Unfit,
    Length,
    Symbol,
    Starts,
    Uncovered,
    Pattern,
    Value,
    Disagrees,
    Payload,
    Record,
    Prescription,
    Depth,
    Erased,
    Majority,
    Surplus,

    // From the state.
    Cancelled,
    AlreadyOpen,
    NotOpen,
    Full,
    NumberZero,
    NotCancelled,
    Held,
    NotHeld,
}

// The number of a refusal.
impl From<Refusal> for u8 {
    ghost from_gives = { λ refusal number. number ≡ number_of refusal };

    fn from(refusal: Refusal) -> u8 {
        match refusal {
            Refusal::Invalid => 1,
            Refusal::Unfit => 2,
            Refusal::Length => 3,
            Refusal::Symbol => 4,
            Refusal::Starts => 5,
            Refusal::Uncovered => 6,
            Refusal::Pattern => 7,
            Refusal::Value => 8,
            Refusal::Disagrees => 9,
            Refusal::Payload => 10,
            Refusal::Record => 11,
            Refusal::Prescription => 16,
            Refusal::Depth => 18,
            Refusal::Erased => 19,
            Refusal::Majority => 21,
            Refusal::Surplus => 22,
            Refusal::Cancelled => 12,
            Refusal::AlreadyOpen => 13,
            Refusal::NotOpen => 14,
            Refusal::Full => 15,
            Refusal::NumberZero => 17,
            Refusal::NotCancelled => 20,
            Refusal::Held => 23,
            Refusal::NotHeld => 24,
        }
    }
}

impl Refusal {
    // What stands for an accepted call in place of a number.
    pub const NONE: u8 = 0;

    // The numbers of both lists, in the order of the enum. Its contract ties each refusal here to the number of specs/.
    pub fn all() -> [u8; 24]
        ensures list { result ≡ refusals }
        ensures none { Refusal.NONE ≡ served }
        ensures invalid { number_of Refusal.Invalid ≡ invalid }
        ensures unfit { number_of Refusal.Unfit ≡ unfit }
        ensures length { number_of Refusal.Length ≡ wrong_length }
        ensures symbol { number_of Refusal.Symbol ≡ bad_symbol }
        ensures starts { number_of Refusal.Starts ≡ bad_starts }
        ensures uncovered { number_of Refusal.Uncovered ≡ uncovered }
        ensures pattern { number_of Refusal.Pattern ≡ no_pattern }
        ensures value { number_of Refusal.Value ≡ value_too_large }
        ensures disagrees { number_of Refusal.Disagrees ≡ disagrees }
        ensures payload { number_of Refusal.Payload ≡ bad_payload }
        ensures record { number_of Refusal.Record ≡ bad_record }
        ensures prescription { number_of Refusal.Prescription ≡ bad_prescription }
        ensures depth { number_of Refusal.Depth ≡ bad_depth }
        ensures erased { number_of Refusal.Erased ≡ erased }
        ensures majority { number_of Refusal.Majority ≡ no_majority }
        ensures surplus { number_of Refusal.Surplus ≡ surplus_bytes }
        ensures cancelled { number_of Refusal.Cancelled ≡ job_cancelled }
        ensures already_open { number_of Refusal.AlreadyOpen ≡ already_open }
        ensures not_open { number_of Refusal.NotOpen ≡ not_open }
        ensures full { number_of Refusal.Full ≡ table_full }
        ensures number_zero { number_of Refusal.NumberZero ≡ number_zero }
        ensures not_cancelled { number_of Refusal.NotCancelled ≡ not_cancelled }
        ensures held { number_of Refusal.Held ≡ job_held }
        ensures not_held { number_of Refusal.NotHeld ≡ not_held }
    {
        [
            u8::from(Refusal::Invalid),
            u8::from(Refusal::Unfit),
            u8::from(Refusal::Length),
            u8::from(Refusal::Symbol),
            u8::from(Refusal::Starts),
            u8::from(Refusal::Uncovered),
            u8::from(Refusal::Pattern),
            u8::from(Refusal::Value),
            u8::from(Refusal::Disagrees),
            u8::from(Refusal::Payload),
            u8::from(Refusal::Record),
            u8::from(Refusal::Prescription),
            u8::from(Refusal::Depth),
            u8::from(Refusal::Erased),
            u8::from(Refusal::Majority),
            u8::from(Refusal::Surplus),
            u8::from(Refusal::Cancelled),
            u8::from(Refusal::AlreadyOpen),
            u8::from(Refusal::NotOpen),
            u8::from(Refusal::Full),
            u8::from(Refusal::NumberZero),
            u8::from(Refusal::NotCancelled),
            u8::from(Refusal::Held),
            u8::from(Refusal::NotHeld),
        ]
    }
}

// What a call answers for C and in a line: 0 for an accepted one, or the refusal's number.
pub fn answer<T: Copy>(outcome: Result<T, Refusal>) -> u8
    ensures { result ≡ answer_of outcome }
{
    match outcome {
        Ok(_) => Refusal::NONE,
        Err(refusal) => u8::from(refusal),
    }
}
