// The settings of a mill: vendor, tick period, a route mask for each timer, controller id; the range of each number;
// and the record that stores them. They know neither the timer block nor the controller.
#![tactic(auto)]

mod record;

ghost use Rattle.std.specs.Prelude.{◌≡◌};
ghost use Rattle.settings.specs.Settings.{standard, vendor_ok, period_ok, mask_ok, id_ok, in_range};

use answers::Answer;

#[derive(Clone, Copy, PartialEq, Eq)]
pub struct Settings {
    pub vendor: u16,
    // of a tick, in femtoseconds
    pub period: u32,
    // The pins that each timer can be routed to, pin n at bit n. Three fields, and no array: a call holds the settings,
    // and the theorems name each (`mask_of`).
    pub mask0: u32,
    pub mask1: u32,
    pub mask2: u32,
    // the controller's
    pub id: u8,
}

/// What the reader of a record gives: its settings and done, or document 01's and the refusal.
// A struct, and no Result: a refused record has settings too (`read_of`). `Settings::accepted` gives the Result.
#[derive(Clone, Copy)]
pub struct Reading {
    pub settings: Settings,
    pub answer: Answer,
}

/// The vendor has 16 bits.
#[tactic(auto, unfolding(crate::specs::Settings::vendor_ok))]
pub fn vendor_ok(vendor: u32) -> bool
    ensures { result ≡ vendor_ok vendor }
{
    vendor < Settings::VENDOR_END
}

/// The period is 1 to 100,000,000.
#[tactic(auto, unfolding(crate::specs::Settings::period_ok))]
pub fn period_ok(period: u32) -> bool
    ensures { result ≡ period_ok period }
{
    (1..=Settings::LONGEST).contains(&period)
}

/// A mask is nonzero and below 2^24.
#[tactic(auto, unfolding(crate::specs::Settings::mask_ok))]
pub fn mask_ok(mask: u32) -> bool
    ensures { result ≡ mask_ok mask }
{
    (1..Settings::MASK_END).contains(&mask)
}

/// An id is at most 15.
#[tactic(auto, unfolding(crate::specs::Settings::id_ok))]
pub fn id_ok(id: u8) -> bool
    ensures { result ≡ id_ok id }
{
    id <= Settings::LAST_ID
}

impl Settings {
    // ---- ranges

    // 2^16
    pub const VENDOR_END: u32 = 65536;

    pub const LONGEST: u32 = 100000000;
    // 2^24
    pub const MASK_END: u32 = 16777216;

    pub const LAST_ID: u8 = 15;

    // ---- document 01's

    pub const VENDOR: u16 = 0x8086;

    pub const EVERY_PIN: u32 = 0x00FFFFFF;

    pub fn standard() -> Settings
        ensures { result ≡ standard }
    {
        Settings {
            vendor: Settings::VENDOR,
            period: Settings::LONGEST,
            mask0: Settings::EVERY_PIN,
            mask1: Settings::EVERY_PIN,
            mask2: Settings::EVERY_PIN,
            id: 0,
        }
    }

    /// Every number is in its range.
    #[tactic(auto, unfolding(crate::specs::Settings::in_range))]
    pub fn in_range(self) -> bool
        ensures { result ≡ in_range self }
    {
        vendor_ok(u32::from(self.vendor))
            && period_ok(self.period)
            && mask_ok(self.mask0)
            && mask_ok(self.mask1)
            && mask_ok(self.mask2)
            && id_ok(self.id)
    }
}
