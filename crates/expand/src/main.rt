// The program (01): reads show.book and show.cue, expands the cue over the book, and prints what the expander answers. All that it prints is
// made by `report::report`; here it is only read and written.
#![tactic(auto)]

mod report;

use files::checks::BOOK_BYTES;
use files::reading::read_file;
use printing::Page;
use std::io;

fn main(rt: HostRuntime) -> io::Result<()> {
    let mut buffer = [0u8; BOOK_BYTES + 1];
    let book = read_file(&rt, b"show.book", &mut buffer);
    let mut buffer = [0u8; report::CUE_BYTES + 1];
    let cue = read_file(&rt, b"show.cue", &mut buffer);
    let mut page = Page::<{ report::TEXT_BYTES }>::new();
    report::report(book, cue, &mut page);
    rt.write_all(page.as_bytes())
}
