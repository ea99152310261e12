ghost use Rattle.std.specs.Prelude.{◌≡◌, MatchResult};
ghost use Rattle.answers.specs.declared.Answer.TheVariants as answer;
ghost use Rattle.pins.specs.Pins.{pin_at};
ghost use Rattle.controller.specs.Inner.{place_at, register_of, low_pin};
ghost use Rattle.controller.specs.State.{turn, refused};
ghost use Rattle.controller.specs.Window.{id_shown, data_read, data_written, reading_of, writing_of, read_of, write_of};

use crate::{Controller, Turn};
use answers::{Answer, Refusal};

// The window's two places.
#[derive(Clone, Copy)]
enum Place {
    Index,
    Data,
}

impl Place {
    #[tactic(auto, unfolding(crate::specs::Inner::place_at))]
    fn at(width: u64, offset: u64) -> Result<Place, Refusal>
        ensures { result ≡ place_at width offset }
    {
        if width != Controller::WIDTH {
            return Err(Refusal::Width);
        }
        match offset {
            Controller::INDEX => Ok(Place::Index),
            Controller::DATA => Ok(Place::Data),
            _ => Err(Refusal::Offset),
        }
    }
}

// The registers, by index. Those of an entry have its number.
#[derive(Clone, Copy)]
enum Register {
    Id,
    Version,
    Arbitration,
    Low(usize),
    High(usize),
    Unused,
}

impl From<u32> for Register {
    ghost from_gives = { λ index register. register ≡ register_of index };

    #[tactic(auto, unfolding(crate::specs::Inner::register_of))]
    fn from(index: u32) -> Register {
        match index {
            Controller::ID => Register::Id,
            Controller::VERSION => Register::Version,
            Controller::ARBITRATION => Register::Arbitration,
            Controller::ENTRIES..Controller::ENTRIES_END => {
                let n = ((index - Controller::ENTRIES) >> 1) as usize;
                if index & 1 == 0 {
                    Register::Low(n)
                } else {
                    Register::High(n)
                }
            }
            _ => Register::Unused,
        }
    }
}

// `width, offset, value` stay parameters, in `Place::at` too: `read_of` and `write_of` take them, in the paper's order.
impl Controller {
    // ---- the window

    // every access is so many bytes wide; alignment isn't tested
    pub const WIDTH: u64 = 4;
    // a value of so many bytes is below it
    pub const VALUE_END: u64 = 4294967296;
    // the index, writable: bits 7:0 kept, the rest read 0
    pub const INDEX: u64 = 0x00;

    pub const INDEX_KEPT: u32 = 0xff;
    // the data window: the register that the index names
    pub const DATA: u64 = 0x10;

    // ---- the registers, by index

    // id, bits 27:24, writable
    pub const ID: u32 = 0x00;

    pub const ID_AT: u32 = 24;

    pub const ID_KEPT: u32 = 0xf;
    // read only
    pub const VERSION: u32 = 0x01;

    pub const VERSION_VALUE: u32 = 0x0017_0011;
    // bits 27:24 equal the id, read only
    pub const ARBITRATION: u32 = 0x02;
    // 0x10+2n entry n, low word; 0x11+2n its high word
    pub const ENTRIES: u32 = 0x10;
    // the first index after the last entry
    pub const ENTRIES_END: u32 = 0x40;

    fn id_shown(self) -> u32
        ensures { result ≡ id_shown self }
    {
        (self.id & Controller::ID_KEPT) << Controller::ID_AT
    }

    // The register that the index names.
    #[tactic(auto, unfolding(crate::specs::Window::data_read, crate::specs::Inner::register_of))]
    fn data_read(self) -> u32
        ensures { result ≡ data_read self }
    {
        match Register::from(self.index) {
            Register::Id | Register::Arbitration => self.id_shown(),
            Register::Version => Controller::VERSION_VALUE,
            Register::Low(n) => self.entries.low_shown(n),
            Register::High(n) => self.entries.high_shown(n),
            Register::Unused => 0,
        }
    }

    // What stands at an offset of the window.
    #[tactic(auto, unfolding(crate::specs::Window::reading_of, crate::specs::Inner::place_at))]
    fn value_read(self, width: u64, offset: u64) -> Result<u32, Refusal>
        ensures { MatchResult result
            (λ v. reading_of self width offset ≡ turn self (answer.Value v))
            (λ r. reading_of self width offset ≡ refused self r) }
    {
        match Place::at(width, offset)? {
            Place::Index => Ok(self.index),
            Place::Data => Ok(self.data_read()),
        }
    }

    pub fn reading(self, width: u64, offset: u64) -> Turn
        ensures { result ≡ reading_of self width offset }
    {
        match self.value_read(width, offset) {
            Ok(value) => Turn {
                controller: self,
                answer: Answer::Value(value as u64),
            },
            Err(refusal) => self.refused(refusal),
        }
    }

    #[tactic(auto, unfolding(crate::specs::Window::read_of))]
    pub fn read(self, width: u64, offset: u64) -> Turn
        ensures { result ≡ read_of self width offset }
    {
        self.served(|c| c.reading(width, offset))
    }

    // The state after a write to the register that the index names.
    #[tactic(auto, unfolding(crate::specs::Window::data_written, crate::specs::Inner::register_of))]
    fn data_written(self, value: u32) -> Controller
        ensures { result ≡ data_written self value }
    {
        match Register::from(self.index) {
            Register::Id => Controller {
                id: (value >> Controller::ID_AT) & Controller::ID_KEPT,
                ..self
            },
            Register::Low(n) => Controller {
                entries: self.entries.low_written(n, value),
                ..self
            },
            Register::High(n) => Controller {
                entries: self.entries.high_written(n, value),
                ..self
            },
            Register::Version | Register::Arbitration | Register::Unused => self,
        }
    }

    /// The pin whose low word a write goes to, by the index; none if it goes elsewhere or is refused.
    #[tactic(auto, unfolding(crate::specs::Inner::low_pin, crate::specs::Inner::place_at, crate::specs::Inner::register_of))]
    pub fn low_pin(index: u32, width: u64, offset: u64, value: u64) -> Option<usize>
        ensures { result ≡ pin_at (low_pin index width offset value) }
    {
        let Ok(Place::Data) = Place::at(width, offset) else {
            return None;
        };
        if Controller::VALUE_END <= value {
            return None;
        }
        match Register::from(index) {
            Register::Low(n) => Some(n),
            _ => None,
        }
    }

    // The state after a write to an offset of the window.
    #[tactic(auto, unfolding(crate::specs::Window::writing_of, crate::specs::Inner::place_at))]
    fn written(self, width: u64, offset: u64, value: u64) -> Result<Controller, Refusal>
        ensures { MatchResult result
            (λ c. writing_of self width offset value ≡ turn c answer.Done)
            (λ r. writing_of self width offset value ≡ refused self r) }
    {
        let place = Place::at(width, offset)?;
        let Ok(value) = u32::try_from(value) else {
            return Err(Refusal::Value);
        };
        match place {
            Place::Index => Ok(Controller {
                index: value & Controller::INDEX_KEPT,
                ..self
            }),
            Place::Data => Ok(self.data_written(value)),
        }
    }

    pub fn writing(self, width: u64, offset: u64, value: u64) -> Turn
        ensures { result ≡ writing_of self width offset value }
    {
        self.done(self.written(width, offset, value))
    }

    #[tactic(auto, unfolding(crate::specs::Window::write_of))]
    pub fn write(self, width: u64, offset: u64, value: u64) -> Turn
        ensures { result ≡ write_of self width offset value }
    {
        self.served(|c| c.writing(width, offset, value))
    }
}
