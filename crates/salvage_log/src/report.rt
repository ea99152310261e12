// The text that is printed: a heading, a line for each skipped stretch, and how many records were kept.
ghost use Rattle.std.specs.Prelude.{◌≡◌, ◌+◌, ◌*◌, ◌≤◌, length};
ghost use Rattle.lines.specs.Put.{over};
ghost use Rattle.salvage_log.specs.Output.{list_report};

/// The report of so many stretches, which stand in the list, and of so many records, at the start of out.
pub(crate) fn report(list: &[u64], stretches: usize, records: u64, out: &mut [u8]) -> usize
    requires stretches_in_bounds { 2 * stretches ≤ length list.now }
    requires records_in_bounds { length (list_report list.now stretches records) + 64 ≤ length out.old }
    ensures { (result ≡ length (list_report list.now stretches records)) × (out.new ≡ over (list_report list.now stretches records) out.old) }
{
    let mut at = lines::report::heading(out, 0);
    for i in 0..stretches {
        let offset = list[2 * i];
        let size = list[2 * i + 1];
        at = lines::report::skipped(size, offset, out, at);
    }
    lines::report::kept(records, out, at)
}
