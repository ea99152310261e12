// The line of the first record where two engines differ, put into a lent buffer as the others are.
ghost use Rattle.std.specs.Prelude.{◌≡◌, ◌+◌, ◌≤◌, length};
ghost use Rattle.lines.specs.Put.{Put, buffer_after, place_after};
ghost use Rattle.lines.specs.Line.{differ_line};

use crate::{has_room, text};

fn put_differ(number: u64, place: u64, out: &mut [u8], at: usize) -> usize
    requires { at + 64 ≤ length out.old }
    ensures put { Put (differ_line number place) out.old at out.new result }
    ensures upper_bound { result ≤ at + 64 }
{
    text::put_placed(b"differ ", number, place, out, at)
}

/// Record number k stands at a place of the log.
pub fn differ(number: u64, place: u64, out: &mut [u8], at: usize) -> usize
    ensures out_after { (out.new ≡ buffer_after out.old at (differ_line number place)) × (result ≡ place_after out.old at (differ_line number place)) }
    ensures upper_bound { result ≤ at + 64 }
{
    if !has_room(out.len(), at) {
        return at;
    }
    put_differ(number, place, out, at)
}
