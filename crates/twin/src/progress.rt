// How far a long advance is, on a terminal: standard error, or descriptor 3. `nataqvoju` reads what a program tells on
// standard error, so it hands the terminal on as descriptor 3.
use std::fmt::InlineText;
use std::fs;
use std::fs::File;
use std::io::{IsTerminal, Print, Write};
use std::os::unix::fs::FileTypeExt;

// Descriptor 3, by the name that the system gives it.
const HANDED_ON: &str = "/proc/self/fd/3";

// The longest line, of record 18446744073709551615, has 66 bytes.
const LINE: usize = 80;

// Whether what was handed on is a device, as a terminal is. Only then it is opened: to open a pipe may wait.
fn is_device(rt: &HostRuntime) -> bool {
    match fs::metadata(rt, HANDED_ON) {
        Ok(found) => found.file_type().is_char_device(),
        Err(_) => false,
    }
}

fn show_handed_on(rt: &HostRuntime, text: &[u8]) {
    if !is_device(rt) {
        return;
    }
    if let Ok(mut file) = File::options().write(true).open(rt, HANDED_ON) {
        if file.is_terminal() {
            let _ = file.write_all(text);
        }
    }
}

// A text is shown on the terminal, if there is one. One that can't be shown is lost.
fn show(rt: &HostRuntime, text: &[u8]) {
    if rt.stderr().is_terminal() {
        let _ = Print::write_all(&rt.stderr(), text);
        return;
    }
    show_handed_on(rt, text);
}

// The line is written over by the next one.
pub(crate) fn shown(rt: &HostRuntime, record: u64, done: u32, ticks: u32) {
    let line = InlineText::<LINE>::of(format_args!(
        "\rtwin: record {record}: {done} of {ticks} ticks"
    ));
    show(rt, line.as_str().as_bytes());
}

// The line is taken away: no such line is longer than these blanks.
pub(crate) fn cleared(rt: &HostRuntime) {
    show(
        rt,
        b"\r                                                            \r",
    );
}
