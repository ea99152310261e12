// The fields of a low word, by shifts and masks.
ghost use Rattle.std.specs.Prelude.{◌≡◌, ◌<◌, ◌/◌, ◌%◌, ◌^◌};
ghost use Rattle.entries.specs.Word.{vector_of, mode_of, logical_of, active_low_of, remote_of, level_of, masked_of, with_remote, without_remote, written, shown, word_ok};

use crate::Low;

impl Low {
    // ---- its bits, in the order of the paper's table
    // Numbers, and no enum: a name with `_AT` is the place that a word is shifted by, any other a mask of bits.

    // 7:0 vector, writable
    pub const VECTOR: u32 = 0xff;
    // 10:8 delivery mode, writable
    pub const MODE_AT: u32 = 8;
    // its three bits, shifted down
    pub const MODE: u32 = 0x7;
    // 11 logical destination, writable
    pub const LOGICAL_AT: u32 = 11;
    // 12 delivery status, read only: 1 exactly for an eligible pin; it alone
    pub const STATUS: u32 = 0x0000_1000;
    // 13 active low, writable
    pub const ACTIVE_LOW_AT: u32 = 13;
    // 14 remote IRR, read only: an edge entry's is 0
    pub const REMOTE_AT: u32 = 14;
    // it alone, and all but it
    pub const REMOTE: u32 = 0x0000_4000;

    pub const NOT_REMOTE: u32 = 0xffff_bfff;
    // 15 level, writable
    pub const LEVEL_AT: u32 = 15;
    // 16 mask, writable
    pub const MASKED_AT: u32 = 16;
    // 31:17 not used, 0

    // ---- whole words

    // what a write takes: 16:15, 13, 11:0
    pub const WRITABLE: u32 = 0x0001_afff;
    // what an edge entry's stored word has not: 31:17, 14, 12
    pub const NOT_STORED: u32 = 0xfffe_5000;
    // masked, all else 0
    pub const RESET: u32 = 0x0001_0000;

    pub fn vector(self) -> u8
        ensures { result ≡ vector_of self.0 }
    {
        (self.0 & Low::VECTOR) as u8
    }

    #[tactic(auto, unfolding(crate::specs::Word::mode_of))]
    pub fn mode(self) -> u32
        ensures { result ≡ mode_of self.0 }
    {
        (self.0 >> Low::MODE_AT) & Low::MODE
    }

    // One bit, by its number.
    fn bit(self, at: u32) -> u8
        requires { at < 32 }
        ensures { result ≡ self.0 / 2 ^ at % 2 }
    {
        ((self.0 >> at) & 1) as u8
    }

    pub fn logical(self) -> u8
        ensures { result ≡ logical_of self.0 }
    {
        self.bit(Low::LOGICAL_AT)
    }

    pub fn active_low(self) -> u8
        ensures { result ≡ active_low_of self.0 }
    {
        self.bit(Low::ACTIVE_LOW_AT)
    }

    #[tactic(auto, unfolding(crate::specs::Word::remote_of))]
    pub fn is_remote(self) -> bool
        ensures { result ≡ remote_of self.0 }
    {
        self.bit(Low::REMOTE_AT) == 1
    }

    #[tactic(auto, unfolding(crate::specs::Word::level_of))]
    pub fn is_level(self) -> bool
        ensures { result ≡ level_of self.0 }
    {
        self.bit(Low::LEVEL_AT) == 1
    }

    #[tactic(auto, unfolding(crate::specs::Word::masked_of))]
    pub fn is_masked(self) -> bool
        ensures { result ≡ masked_of self.0 }
    {
        self.bit(Low::MASKED_AT) == 1
    }

    pub fn with_remote(self) -> u32
        ensures { result ≡ with_remote self.0 }
    {
        self.0 | Low::REMOTE
    }

    pub fn without_remote(self) -> u32
        ensures { result ≡ without_remote self.0 }
    {
        self.0 & Low::NOT_REMOTE
    }

    /// The word after a write: the value's writable bits. Remote IRR is 0 if they leave the entry edge, and as it was
    /// if they leave it level.
    pub fn written(self, value: u32) -> u32
        ensures { result ≡ written self.0 value }
    {
        let taken = value & Low::WRITABLE;
        let kept = self.0 & Low::REMOTE;
        if !Low(value).is_level() {
            return taken;
        }
        taken | kept
    }

    pub fn shown(self, eligible: bool) -> u32
        ensures { result ≡ shown self.0 eligible }
    {
        if eligible {
            self.0 | Low::STATUS
        } else {
            self.0
        }
    }

    /// Bit 15, moved to 14's place, takes 14 out of the mask: a level entry may have remote IRR. With a test of its own
    /// for it a short call was a third longer (docs/BENCHMARKS.md).
    pub fn word_ok(self) -> bool
        ensures { result ≡ word_ok self.0 }
    {
        let allowed = (self.0 >> 1) & Low::REMOTE;
        self.0 & (Low::NOT_STORED - allowed) == 0
    }
}
