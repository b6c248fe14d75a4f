// A mark for each vertex, a bit each. They take no memory but the caller's, so that a check needs none.
ghost use Rattle.std.specs.Prelude.{◌≡◌, ◌/◌, ◌<◌, ◌==◌, ◌||◌, ℕ, false, length};
ghost use Rattle.lama_paths.specs.Marks.{is_set};

use lama_base::limits::MAX_VERTICES;

// The bits of a word.
const BITS: u32 = 64;

// So many words have a bit for each vertex that a graph may have.
const WORDS: usize = 65_536;

const _: () = prove!(WORDS * 64 == MAX_VERTICES as usize);

// Words for all vertices.
pub(crate) fn words() -> [u64; WORDS]
    ensures { 65536 ≡ length result }
{
    [0; WORDS]
}

// No vertex is marked any more.
pub(crate) fn clear(words: &mut [u64])
    ensures { (v : ℕ) → is_set words.new v ≡ false }
{
    for word in words.iter_mut() {
        *word = 0;
    }
}

// Marks a vertex.
#[inline(always)]
pub(crate) fn set(words: &mut [u64], v: u32)
    requires { v / 64 < length words.old }
    ensures { (w : ℕ) → is_set words.new w ≡ (is_set words.old w || (v == w)) }
{
    let place = (v / BITS) as usize;
    words[place] = words[place] | (1 << (v % BITS));
}

// Whether a vertex is marked.
#[inline(always)]
pub(crate) fn is_set(words: &[u64], v: u32) -> bool
    requires { v / 64 < length words.now }
    ensures { result ≡ is_set words.now v }
{
    (words[(v / BITS) as usize] >> (v % BITS)) & 1 == 1
}
