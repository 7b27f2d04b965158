// The words of a lent run: read anywhere, and judged.
#![tactic(auto)]

ghost use Rattle.std.specs.Prelude.{◌≡◌, get_or};
ghost use Rattle.model.specs.Memory.{damaged};

// The word at i, or another outside: 0 is what the definitions read there.
pub fn word_or<T: Copy>(run: &[T], i: usize, other: T) -> T
    ensures { result ≡ get_or run.now i other }
{
    run.get(i).copied().unwrap_or(other)
}

// A slot word among m places. One eager expression: the tests of several words become vector code with one branch.
pub fn is_damaged(w: u32, m: u32) -> bool
    ensures { result ≡ damaged m w }
{
    (w != 0) & (((w / 65536 == 0) | (255 < w / 65536)) | (m <= w % 65536))
}
