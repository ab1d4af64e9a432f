//! What is written to the program's streams.

use crate::page::Page;
use akl_outside::{StreamSink, write_all};
use akl_run::{Status, fixed_line};

/// Shows a text. An `Err` is the status of a write that failed.
pub fn show_text(host: &HostRuntime, text: &[u8]) -> Result<(), Status> {
    match write_all(&mut StreamSink::new(host.stdout()), text) {
        Ok(()) => Ok(()),
        Err(_) => Err(Status::WriteFault),
    }
}

/// Shows what is on a page. An `Err` is the status of a write that failed, or of want of memory for a part of the page.
pub fn show_page(host: &HostRuntime, page: &Page) -> Result<(), Status> {
    show_text(host, page.whole()?)
}

/// Shows what is left on a page at the end, and answers a status, or that of what kept the page from being shown.
pub fn show_last(host: &HostRuntime, page: &Page, status: Status) -> Status {
    match show_page(host, page) {
        Ok(()) => status,
        Err(fault) => fault,
    }
}

/// Says a text on standard error. Where a write fails it is lost: there is no other place to say so.
pub fn say(host: &HostRuntime, text: &[u8]) {
    let _ = write_all(&mut StreamSink::new(host.stderr()), text);
}

/// Says what is on a page on standard error, where memory wasn't wanting for it.
pub fn say_page(host: &HostRuntime, page: &Page) {
    if let Ok(text) = page.whole() {
        say(host, text);
    }
}

/// The line that says of a status why there was nothing to show, unless this was said with its cause.
pub fn fixed_text(status: Status) -> &'static [u8] {
    match fixed_line(status) {
        Some(line) => line.as_bytes(),
        None => b"",
    }
}

/// Says that the word of this number, from 0, is refused. Answers the status.
pub fn refuse_word(host: &HostRuntime, at: usize) -> Status {
    let mut page = Page::new(host.alloc());
    page.push("akl_steps: word ");
    page.push_number(at as i128);
    page.push(" is refused; --help tells the words\n");
    say_page(host, &page);
    Status::Words
}
