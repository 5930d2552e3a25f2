use crate::answer::Answer;

/// Why a request is refused. A refusal changes nothing.
#[derive(Clone, Copy, Debug, PartialEq, Eq)]
pub enum Refusal {
    /// The request has no reading.
    BadRequest,
    /// A reference names no commit and no branch.
    NoSuchRef,
    /// A branch can't have this name.
    BadName,
    /// A branch has this name.
    NameTaken,
    /// The store holds as many records as it may.
    StoreFull,
    /// A cell's text is longer than a cell may be.
    CellTooLong,
    /// After a cell's run the pictures of the state have so many bytes, which are too many.
    StateTooLarge { bytes: u64 },
}

impl Refusal {
    ghost use Rattle.std.specs.Prelude.{◌≡◌, Some, option_map};
    ghost use Rattle.kishu_model.specs.Answers.{refusal_number, refusal_name, refusal_bytes, refused};
    ghost use Rattle.kishu_model.specs.Values.{answer_of, refusal_of, plainly_numbered, numbered};

    /// The refusal of this number, which tells these bytes. None says that there is none.
    pub fn numbered(number: u8, bytes: Option<u64>) -> Option<Refusal>
        ensures { option_map refusal_of result ≡ numbered number bytes }
    {
        match bytes {
            None => Refusal::plain(number),
            Some(bytes) if number == 7 => Some(Refusal::StateTooLarge { bytes }),
            Some(_) => None,
        }
    }

    /// The refusal of this number, which tells no bytes.
    fn plain(number: u8) -> Option<Refusal>
        ensures { option_map refusal_of result ≡ plainly_numbered number }
    {
        match number {
            1 => Some(Refusal::BadRequest),
            2 => Some(Refusal::NoSuchRef),
            3 => Some(Refusal::BadName),
            4 => Some(Refusal::NameTaken),
            5 => Some(Refusal::StoreFull),
            6 => Some(Refusal::CellTooLong),
            _ => None,
        }
    }

    /// The refusal's number.
    pub fn number(self) -> u8
        ensures { result ≡ refusal_number (refusal_of self) }
    {
        match self {
            Refusal::BadRequest => 1,
            Refusal::NoSuchRef => 2,
            Refusal::BadName => 3,
            Refusal::NameTaken => 4,
            Refusal::StoreFull => 5,
            Refusal::CellTooLong => 6,
            Refusal::StateTooLarge { .. } => 7,
        }
    }

    /// The refusal's name, by which its answer tells the reason.
    pub fn reason(self) -> &'static str
        ensures { result.now ≡ refusal_name (refusal_of self) }
    {
        match self {
            Refusal::BadRequest => "BadRequest",
            Refusal::NoSuchRef => "NoSuchRef",
            Refusal::BadName => "BadName",
            Refusal::NameTaken => "NameTaken",
            Refusal::StoreFull => "StoreFull",
            Refusal::CellTooLong => "CellTooLong",
            Refusal::StateTooLarge { .. } => "StateTooLarge",
        }
    }

    /// The bytes that its answer tells, which only a state that is too large has.
    pub fn bytes(self) -> Option<u64>
        ensures { result ≡ refusal_bytes (refusal_of self) }
    {
        match self {
            Refusal::StateTooLarge { bytes } => Some(bytes),
            _ => None,
        }
    }

    /// The answer that tells the refusal.
    pub fn answer(self) -> Answer
        ensures { answer_of result ≡ Some (refused (refusal_of self)) }
    {
        Answer::Refused {
            number: self.number(),
            bytes: self.bytes(),
        }
    }
}
