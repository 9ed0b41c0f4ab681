// The words of a file, from its bytes.
ghost use Rattle.std.specs.Prelude.{◌*◌, ◌≤◌, ◌≡◌, length};
ghost use Rattle.buffers.specs.Words.{over};
ghost use Rattle.files.specs.Words.{words_of};

// The words of a file, each from its two bytes, at the start of a buffer that is lent; and how many they are.
pub fn load(bytes: &[u8], words: &mut [u16]) -> usize
    requires { length bytes.now ≤ 2 * length words.old }
    ensures count { result ≡ length (words_of bytes.now) }
    ensures loaded { words.new ≡ over words.old 0 (words_of bytes.now) }
{
    let (pairs, _) = bytes.as_chunks::<2>();
    for (i, pair) in pairs.iter().enumerate() {
        words[i] = u16::from_le_bytes(*pair);
    }
    pairs.len()
}
