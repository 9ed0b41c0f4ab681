// The designer's check of a book: reads show.book and prints in words what the reader says of it, and what the order test answers. All that
// it prints is made by `report::verdict`; here it is only read and written.
#![tactic(auto)]

mod lines;
mod report;

use files::checks::BOOK_BYTES;
use files::reading::read_file;
use printing::Page;
use std::io;

fn main(rt: HostRuntime) -> io::Result<()> {
    let mut buffer = [0u8; BOOK_BYTES + 1];
    let book = read_file(&rt, b"show.book", &mut buffer);
    let mut page = Page::<{ report::TEXT_BYTES }>::new();
    report::verdict(book, &mut page);
    rt.write_all(page.as_bytes())
}
