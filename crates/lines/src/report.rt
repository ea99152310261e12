// The lines of a salvage's report, put into a lent buffer as the others are.
ghost use Rattle.std.specs.Prelude.{◌≡◌, ◌+◌, ◌≤◌, length};
ghost use Rattle.lines.specs.Put.{Put, buffer_after, place_after};
ghost use Rattle.lines.specs.Line.{heading_line, skipped_line, kept_line};

use crate::{has_room, text};

// The first line of a salvage's report.
fn put_heading(out: &mut [u8], at: usize) -> usize
    requires { at + 64 ≤ length out.old }
    ensures put { Put heading_line out.old at out.new result }
    ensures upper_bound { result ≤ at + 64 }
{
    text::put_bytes(b"kept records may include damage\n", out, at)
}

// The line of a skipped stretch.
fn put_skipped(size: u64, place: u64, out: &mut [u8], at: usize) -> usize
    requires { at + 64 ≤ length out.old }
    ensures put { Put (skipped_line size place) out.old at out.new result }
    ensures upper_bound { result ≤ at + 64 }
{
    text::put_placed(b"skipped ", size, place, out, at)
}

// The last line of a salvage's report.
fn put_kept(records: u64, out: &mut [u8], at: usize) -> usize
    requires { at + 64 ≤ length out.old }
    ensures put { Put (kept_line records) out.old at out.new result }
    ensures upper_bound { result ≤ at + 64 }
{
    let p = text::put_label(b"kept ", records, out, at);
    text::put_byte(10, out, p)
}

/// The first line of a salvage's report, whatever was kept.
pub fn heading(out: &mut [u8], at: usize) -> usize
    ensures out_after { (out.new ≡ buffer_after out.old at heading_line) × (result ≡ place_after out.old at heading_line) }
    ensures upper_bound { result ≤ at + 64 }
{
    if !has_room(out.len(), at) {
        return at;
    }
    put_heading(out, at)
}

/// The line of a skipped stretch, so many bytes from a place of the log on.
pub fn skipped(size: u64, place: u64, out: &mut [u8], at: usize) -> usize
    ensures out_after { (out.new ≡ buffer_after out.old at (skipped_line size place)) × (result ≡ place_after out.old at (skipped_line size place)) }
    ensures upper_bound { result ≤ at + 64 }
{
    if !has_room(out.len(), at) {
        return at;
    }
    put_skipped(size, place, out, at)
}

/// The last line of a salvage's report.
pub fn kept(records: u64, out: &mut [u8], at: usize) -> usize
    ensures out_after { (out.new ≡ buffer_after out.old at (kept_line records)) × (result ≡ place_after out.old at (kept_line records)) }
    ensures upper_bound { result ≤ at + 64 }
{
    if !has_room(out.len(), at) {
        return at;
    }
    put_kept(records, out, at)
}
