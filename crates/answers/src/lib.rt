// Everything that a call can answer, and the paper's number and values of each answer ("Numbers a call can answer").
#![tactic(auto)]

ghost use Rattle.std.specs.Prelude.{◌≡◌};
ghost use Rattle.answers.specs.Numbers.{number_of, bare, numbers_of, is_done};

// Why a call is refused: a variant for each reason that the table names.
#[derive(Clone, Copy, PartialEq, Eq)]
pub enum Refusal {
    // 1: the window doesn't exist
    Window,
    // 1: the offset in it doesn't exist
    Offset,
    // 2: width or alignment isn't allowed
    Width,
    // 3: pin above 23
    Pin,
    // 4: wire level above 1
    Level,
    // 4: a 4-byte write with a value above 4,294,967,295
    Value,
    // 5: state not well formed
    State,
    // 6: wrong mark, of a log's record or of a settings record
    Mark,
    // 7: log: unknown kind
    Kind,
    // 8: log: record cut short
    Short,
    // 8: settings: a record or a lent buffer of another length
    Length,
    // 9: settings: unknown form
    Form,
    // 10: a number out of range
    Range,
    // 12: a lent buffer is too small
    NoRoom,
    // 14: the pause pin's entry isn't an edge entry
    NotEdge,
}

#[derive(Clone, Copy, PartialEq, Eq)]
pub enum Answer {
    Done,
    // what a done read gives
    Value(u64),
    // each timer's number of firings in a done advance
    Fired(u32, u32, u32),
    // what a delivery step gives, where a pin is eligible
    Interrupt {
        pin: u8,
        vector: u8,
        destination: u8,
        logical: u8,
    },
    // what it gives, where none is
    Nothing,
    Refused(Refusal),
}

// An answer as numbers alone, for those who link from C. No byte of it is padding.
#[repr(C)]
#[derive(Clone, Copy)]
pub struct Numbers {
    pub value: u64,
    pub number: u32,
    pub delivered: u32,
    pub fired: [u32; 3],
    pub pin: u8,
    pub vector: u8,
    pub destination: u8,
    pub logical: u8,
}

// The table's number of the reason: three numbers stand for two reasons each.
impl From<Refusal> for u32 {
    ghost from_gives = { λ refusal number. number ≡ number_of refusal };

    #[tactic(auto, unfolding(crate::specs::Numbers::number_of))]
    fn from(refusal: Refusal) -> u32 {
        match refusal {
            Refusal::Window | Refusal::Offset => 1,
            Refusal::Width => 2,
            Refusal::Pin => 3,
            Refusal::Level | Refusal::Value => 4,
            Refusal::State => 5,
            Refusal::Mark => 6,
            Refusal::Kind => 7,
            Refusal::Short | Refusal::Length => 8,
            Refusal::Form => 9,
            Refusal::Range => 10,
            Refusal::NoRoom => 12,
            Refusal::NotEdge => 14,
        }
    }
}

impl Numbers {
    // The paper's number, and no value.
    fn bare(number: u32) -> Numbers
        ensures { result ≡ bare number }
    {
        Numbers {
            value: 0,
            number,
            delivered: 0,
            fired: [0; 3],
            pin: 0,
            vector: 0,
            destination: 0,
            logical: 0,
        }
    }
}

impl Answer {
    // Whatever it gives, it is done unless it is refused.
    pub fn is_done(self) -> bool
        ensures { result ≡ is_done self }
    {
        !matches!(self, Answer::Refused(_))
    }
}

impl From<Answer> for Numbers {
    ghost from_gives = { λ answer numbers. numbers ≡ numbers_of answer };

    #[tactic(auto, unfolding(crate::specs::Numbers::numbers_of))]
    fn from(answer: Answer) -> Numbers {
        match answer {
            Answer::Done | Answer::Nothing => Numbers::bare(0),
            Answer::Value(value) => Numbers {
                value,
                ..Numbers::bare(0)
            },
            Answer::Fired(a, b, c) => Numbers {
                fired: [a, b, c],
                ..Numbers::bare(0)
            },
            Answer::Interrupt {
                pin,
                vector,
                destination,
                logical,
            } => Numbers {
                delivered: 1,
                pin,
                vector,
                destination,
                logical,
                ..Numbers::bare(0)
            },
            Answer::Refused(refusal) => Numbers::bare(u32::from(refusal)),
        }
    }
}
