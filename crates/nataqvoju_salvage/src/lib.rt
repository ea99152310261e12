// The salvage of a damaged log, for those who link from C: the log, the buffer for its records and the one for the list
// are lent.
#![tactic(auto)]

ghost use Rattle.std.specs.Prelude.{◌≡◌};
ghost use Rattle.salvage.specs.Salvage.{salvaged_of, kept_after, list_after};
ghost use Rattle.salvage.specs.Told.{numbers_of};

use salvage::SalvagedNumbers;

/// Keeps the records of a log at the start of kept, and lists each skipped stretch at the start of list.
#[unsafe(no_mangle)]
pub extern "C" fn nataqvoju_salvage(
    log: &[u8],
    kept: &mut [u8],
    list: &mut [u64],
) -> SalvagedNumbers
    ensures { (result ≡ numbers_of (salvaged_of log.now kept.old list.old)) × (kept.new ≡ kept_after log.now kept.old list.old) × (list.new ≡ list_after log.now kept.old list.old) }
{
    SalvagedNumbers::from(salvage::salvage(log, kept, list))
}
