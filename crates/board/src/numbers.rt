// A call as numbers, as the monitor gives it where one entry makes every call.
ghost use Rattle.std.specs.Prelude.{◌≡◌};
ghost use Rattle.board.specs.Numbers.{named_by};

use crate::{Call, CallNumbers};
use answers::Refusal;
use settings::Settings;

// A log's kinds have the log's numbers, and a reset follows. A vector has eight bits and ticks 32: of a wider number
// the lower bits count.
impl TryFrom<CallNumbers> for Call {
    type Error = Refusal;

    ghost try_from_gives = { λ numbers call. call ≡ named_by numbers };

    #[tactic(auto, unfolding(crate::specs::Numbers::named_by))]
    fn try_from(numbers: CallNumbers) -> Result<Call, Refusal> {
        let CallNumbers { kind, p, q, r, s } = numbers;
        Ok(match kind {
            1 => Call::Read {
                window: p,
                width: q,
                offset: r,
            },
            2 => Call::Write {
                window: p,
                width: q,
                offset: r,
                value: s,
            },
            3 => Call::Wire { pin: p, level: q },
            4 => Call::End {
                vector: (p % 256) as u8,
            },
            5 => Call::Advance {
                ticks: (p % 4294967296) as u32,
            },
            6 => Call::Deliver,
            7 => Call::Reset {
                settings: Settings::standard(),
            },
            _ => return Err(Refusal::Kind),
        })
    }
}
