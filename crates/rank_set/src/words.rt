//! Bits in a row of words: bit k is bit k % 64 of word k / 64.

ghost use Rattle.std.specs.Prelude.{◌≡◌, ℕ, ◌+◌, ◌*◌, ◌/◌, ◌^◌, ◌<◌, ◌≤◌, ◌≢◌, ◌∷◌, [], false, true, length, slice_index, MatchOption};
ghost use Rattle.rank_set.specs.Ranks.{members};
ghost use Rattle.rank_set.specs.Words.{flags_of, has, IsClear, IsFirstBit, IsLastBit, IsSummary};

/// Whether bit `place` is set.
pub(crate) fn has_bit(words: &[u64], place: usize) -> bool
    requires { place / 64 < length words.now }
    ensures { result ≡ has words.now place }
{
    words[place / 64] >> (place % 64) & 1 == 1
}

/// Sets bit `place`.
fn set_bit(words: &mut [u64], place: usize)
    requires { place / 64 < length words.old }
    ensures bit { has words.new place ≡ true }
    ensures other_bits { (k : ℕ) → k ≢ place → has words.new k ≡ has words.old k }
    ensures other_words { (w : ℕ) → w ≢ place / 64
        → slice_index words.new w ≡ slice_index words.old w }
{
    words[place / 64] |= 1 << (place % 64);
}

/// Clears bit `place`.
fn clear_bit(words: &mut [u64], place: usize)
    requires { place / 64 < length words.old }
    ensures bit { has words.new place ≡ false }
    ensures other_bits { (k : ℕ) → k ≢ place → has words.new k ≡ has words.old k }
    ensures other_words { (w : ℕ) → w ≢ place / 64
        → slice_index words.new w ≡ slice_index words.old w }
{
    words[place / 64] &= !(1 << (place % 64));
}

/// Sets bit `place`, and that of its word in the summary.
pub(crate) fn set_with_summary(words: &mut [u64], summary: &mut [u64], place: usize)
    requires within { place / 64 < length words.old }
    requires summary_within { place / 64 / 64 < length summary.old }
    requires summed { IsSummary words.old summary.old }
    ensures bit { has words.new place ≡ true }
    ensures other_bits { (k : ℕ) → k ≢ place → has words.new k ≡ has words.old k }
    ensures summed { IsSummary words.new summary.new }
{
    set_bit(words, place);
    set_bit(summary, place / 64);
}

/// Clears bit `place`, which is set, and that of its word in the summary if the word is 0 then.
pub(crate) fn clear_with_summary(words: &mut [u64], summary: &mut [u64], place: usize)
    requires within { place / 64 < length words.old }
    requires summary_within { place / 64 / 64 < length summary.old }
    requires some { has words.old place ≡ true }
    requires summed { IsSummary words.old summary.old }
    ensures bit { has words.new place ≡ false }
    ensures other_bits { (k : ℕ) → k ≢ place → has words.new k ≡ has words.old k }
    ensures summed { IsSummary words.new summary.new }
{
    clear_bit(words, place);
    if words[place / 64] == 0 {
        clear_bit(summary, place / 64);
    }
}

/// The first bit that is set, where word `number` is the first that isn't 0.
pub(crate) fn first_bit_in(words: &[u64], number: usize) -> usize
    requires fits { length words.now ≤ 2 ^ 58 }
    requires within { number < length words.now }
    requires some { 0 < slice_index words.now number }
    requires before { (w : ℕ) → w < number → slice_index words.now w ≡ 0 }
    ensures { IsFirstBit words.now result }
{
    number * 64 + words[number].trailing_zeros() as usize
}

/// The last bit that is set, where word `number` is the last that isn't 0.
pub(crate) fn last_bit_in(words: &[u64], number: usize) -> usize
    requires fits { length words.now ≤ 2 ^ 58 }
    requires within { number < length words.now }
    requires some { 0 < slice_index words.now number }
    requires after { (w : ℕ) → number < w → slice_index words.now w ≡ 0 }
    ensures { IsLastBit words.now result }
{
    number * 64 + (63 - words[number].leading_zeros()) as usize
}

/// The first bit that is set, or `None` where none is.
pub(crate) fn first_bit(words: &[u64]) -> Option<usize>
    requires { length words.now ≤ 2 ^ 58 }
    ensures { MatchOption result (IsClear words.now) (λ place. IsFirstBit words.now place) }
{
    let number = words.iter().position(|word| *word != 0)?;
    Some(first_bit_in(words, number))
}

/// The last bit that is set, or `None` where none is.
pub(crate) fn last_bit(words: &[u64]) -> Option<usize>
    requires { length words.now ≤ 2 ^ 58 }
    ensures { MatchOption result (IsClear words.now) (λ place. IsLastBit words.now place) }
{
    let number = words.iter().rposition(|word| *word != 0)?;
    Some(last_bit_in(words, number))
}

/// The bit that is set and below which `n` are set.
pub(crate) fn nth_bit(words: &[u64], n: usize) -> usize
    requires fits { length words.now ≤ 2 ^ 58 }
    requires some { n < members (flags_of words.now (64 * length words.now)) }
    ensures bit { has words.now result ≡ true }
    ensures before { members (flags_of words.now result) ≡ n }
{
    let mut left = n;
    for (number, word) in words.iter().enumerate() {
        let ones = word.count_ones() as usize;
        if left < ones {
            return number * 64 + nth_of(*word, left);
        }
        left -= ones;
    }
    unreachable!()
}

/// The bit of a word that is set and below which `n` are set.
fn nth_of(word: u64, n: usize) -> usize
    requires { n < members (flags_of (word ∷ []) 64) }
    ensures within { result < 64 }
    ensures bit { has (word ∷ []) result ≡ true }
    ensures before { members (flags_of (word ∷ []) result) ≡ n }
{
    let mut left = n;
    for place in 0..64 {
        if word >> place & 1 == 1 {
            if left == 0 {
                return place;
            }
            left -= 1;
        }
    }
    unreachable!()
}
