// The settings record: the mark 5A C3, a form byte 1, and the numbers, 22 bytes, little-endian.
ghost use Rattle.std.specs.Prelude.{◌≡◌};
ghost use Rattle.settings.specs.Record.{record_of, settings_at, reading_of, read_of, write_of, buffer_after};

use crate::{Reading, Settings};
use answers::{Answer, Refusal};
use little_endian::{bytes16, bytes32, u16_at, u32_at};

const LENGTH: usize = 22;

const MARK: [u8; 2] = [0x5a, 0xc3];

const FORM: u8 = 1;

/// The numbers that stand in a record, whatever they are.
#[tactic(auto, unfolding(crate::specs::Record::settings_at))]
fn settings_at(bytes: &[u8; LENGTH]) -> Settings
    ensures { result ≡ settings_at bytes.now }
{
    Settings {
        vendor: u16_at(bytes, 3),
        period: u32_at(bytes, 5),
        mask0: u32_at(bytes, 9),
        mask1: u32_at(bytes, 13),
        mask2: u32_at(bytes, 17),
        id: bytes[21],
    }
}

impl Settings {
    /// The settings of a record, or the refusal of the first test that fails: of its length, the mark, the form, the
    /// numbers.
    #[tactic(auto, unfolding(crate::specs::Record::read_of, crate::specs::Record::marked))]
    fn tested(bytes: &[u8]) -> Result<Settings, Refusal>
        ensures { reading_of result ≡ read_of bytes.now }
    {
        let record = bytes.as_array().ok_or(Refusal::Length)?;
        if !record.starts_with(&MARK) {
            return Err(Refusal::Mark);
        }
        if record[2] != FORM {
            return Err(Refusal::Form);
        }
        let settings = settings_at(record);
        if !settings.in_range() {
            return Err(Refusal::Range);
        }
        Ok(settings)
    }

    /// The settings of a record, and done. It is refused, in order, by 8 for its length, 6 for the mark, 9 for the
    /// form, 10 for a number out of range; the settings are then document 01's.
    pub fn read(bytes: &[u8]) -> Reading
        ensures { result ≡ read_of bytes.now }
    {
        match Settings::tested(bytes) {
            Ok(settings) => Reading {
                settings,
                answer: Answer::Done,
            },
            Err(refusal) => Reading {
                settings: Settings::standard(),
                answer: Answer::Refused(refusal),
            },
        }
    }

    /// What the reader gives, as a `Result`: the settings, or why the record is refused.
    #[tactic(auto, unfolding(crate::specs::Record::read_of))]
    pub fn accepted(bytes: &[u8]) -> Result<Settings, Refusal>
        ensures { reading_of result ≡ read_of bytes.now }
    {
        let reading = Settings::read(bytes);
        match reading.answer {
            Answer::Refused(refusal) => Err(refusal),
            _ => Ok(reading.settings),
        }
    }

    #[tactic(auto, unfolding(crate::specs::Record::record_of, little_endian::specs::Numbers::bytes16, little_endian::specs::Numbers::bytes32))]
    fn record(self) -> [u8; LENGTH]
        ensures { result ≡ record_of self }
    {
        let mut record = [0; LENGTH];
        record[..2].copy_from_slice(&MARK);
        record[2] = FORM;
        record[3..5].copy_from_slice(&bytes16(self.vendor));
        record[5..9].copy_from_slice(&bytes32(self.period));
        record[9..13].copy_from_slice(&bytes32(self.mask0));
        record[13..17].copy_from_slice(&bytes32(self.mask1));
        record[17..21].copy_from_slice(&bytes32(self.mask2));
        record[21] = self.id;
        record
    }

    /// Writes the record into a buffer of 22 bytes. Refused by 10 for a number out of range, then by 8 for the buffer's
    /// length; the buffer then stays as it came.
    #[tactic(auto, unfolding(crate::specs::Record::write_of, crate::specs::Record::buffer_after))]
    pub fn write(self, out: &mut [u8]) -> Answer
        ensures { (result ≡ write_of self out.old) × (out.new ≡ buffer_after self out.old) }
    {
        if !self.in_range() {
            return Answer::Refused(Refusal::Range);
        }
        if out.len() != LENGTH {
            return Answer::Refused(Refusal::Length);
        }
        out.copy_from_slice(&self.record());
        Answer::Done
    }
}
