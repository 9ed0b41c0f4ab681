// An accepted book, as a value: its words with its shape. Whoever has one need not ask again whether the reader accepts the words.
ghost use Rattle.reader.specs.Book.{Accepted};

use crate::Shape;

#[derive(Clone, Copy)]
pub struct Book<'a> {
    pub words: &'a [u16],
    pub shape: Shape,
    ghost accepted: { Accepted words.now shape },
}
