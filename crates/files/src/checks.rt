// The checks of a file (01: "It prints one word and stops for a file `missing`, `long` .., `odd` in length").
ghost use Rattle.std.specs.Prelude.{◌≡◌, ◌≤◌, length, IfOk};
ghost use Rattle.files.specs.Files.{file_of, check};
ghost use Rattle.files.specs.checks.Refusal.{word_told, checked};

// The most bytes of a book's file, and the most words.
pub const BOOK_BYTES: usize = 42502;

pub const BOOK_WORDS: usize = BOOK_BYTES / 2;

// Why a program does not take a file.
#[derive(Clone, Copy, Debug, PartialEq, Eq)]
pub enum Refusal {
    Missing,
    Long,
    Odd,
}

impl Refusal {
    // The one word that a program prints of such a file; no Display, since a page takes texts (printing/src/lib.rt).
    pub fn word(self) -> &'static str
        ensures { result.now ≡ word_told self }
    {
        match self {
            Refusal::Missing => "missing",
            Refusal::Long => "long",
            Refusal::Odd => "odd",
        }
    }
}

// The bytes of a file that is there and has so many bytes at most, and an even number of them.
#[tactic(auto, unfolding(crate::specs::Files::check))]
pub fn check_file(file: Option<&[u8]>, most: usize) -> Result<&[u8], Refusal>
    ensures answer { checked result ≡ check most (file_of file.entry) }
    ensures small { IfOk result (λ bs. length bs.now ≤ most) }
{
    let bytes = file.ok_or(Refusal::Missing)?;
    if most < bytes.len() {
        return Err(Refusal::Long);
    }
    if bytes.len() % 2 != 0 {
        return Err(Refusal::Odd);
    }
    Ok(bytes)
}
