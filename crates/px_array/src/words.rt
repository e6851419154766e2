//! Truths packed in words: bit i of word j belongs to place 64 j + i.
ghost use Rattle.std.specs.Prelude.{◌≡◌, ◌≢◌, ◌-◌, ◌*◌, ◌^◌, ◌<◌, ◌≤◌, ℕ, Ok, OnOk, length, true, false};
ghost use Rattle.smallvec.specs.SmallVec.{small_vec_len};
ghost use Rattle.px_array.specs.Words.{set_bits, word_bit};
ghost use Rattle.px_value.specs.Answer.{Answers};

use px_value::Px;
use smallvec::SmallVec;

/// Whether the bit of a place is set.
#[inline(always)]
pub(crate) fn bit(words: &[u64], i: usize) -> bool
    requires { i < 64 * length words.now }
    ensures { result ≡ word_bit words.now i }
{
    (words[i / 64] >> (i % 64)) & 1 == 1
}

/// Sets the bit of a place.
#[inline(always)]
pub(crate) fn set_bit(words: &mut [u64], i: usize)
    requires { i < 64 * length words.old }
    ensures here { word_bit words.new i ≡ true }
    ensures others { (k : ℕ) → k ≢ i → word_bit words.new k ≡ word_bit words.old k }
{
    words[i / 64] |= 1 << (i % 64);
}

/// A word more, with no bit set, where the place has none.
#[inline(always)]
pub(crate) fn make_room(words: &mut SmallVec<u64, 1>, i: usize) -> Px<()>
    requires { i ≤ 64 * small_vec_len words.old }
    ensures answer { Answers result (Ok tt) }
    ensures room { OnOk result (i < 64 * small_vec_len words.new) }
    ensures covers { i ≤ 64 * small_vec_len words.new }
    ensures same { (k : ℕ) → word_bit words.new.items k ≡ word_bit words.old.items k }
{
    if i / 64 == words.len() {
        words.push(0)?;
    }
    Ok(())
}

/// Gives a place, whose bit is not set, this truth.
#[inline(always)]
pub(crate) fn put_bit(words: &mut SmallVec<u64, 1>, i: usize, set: bool)
    requires within { i < 64 * small_vec_len words.old }
    requires clear { word_bit words.old.items i ≡ false }
    ensures here { word_bit words.new.items i ≡ set }
    ensures others { (k : ℕ) → k ≢ i → word_bit words.new.items k ≡ word_bit words.old.items k }
    ensures len { small_vec_len words.new ≡ small_vec_len words.old }
{
    if set {
        set_bit(words, i);
    }
}

/// How many bits are set from one place up to another, place by place.
#[tactic(auto, using(crate::proofs::Counting::places_next))]
fn count_places(words: &[u64], from: usize, to: usize) -> u32
    requires order { from ≤ to }
    requires within { to ≤ 64 * length words.now }
    requires few { to < 2 ^ 32 }
    ensures { result ≡ set_bits words.now from (to - from) }
{
    let mut count = 0;
    for place in from..to {
        if bit(words, place) {
            count += 1;
        }
    }
    count
}

/// How many bits are set in the words from one up to another.
#[tactic(auto, using(crate::proofs::Counting::words_next))]
fn count_words(words: &[u64], from: usize, to: usize) -> u32
    requires order { from ≤ to }
    requires within { to ≤ length words.now }
    requires few { 64 * to < 2 ^ 32 }
    ensures { result ≡ set_bits words.now (64 * from) (64 * (to - from)) }
{
    let mut count = 0;
    for place in from..to {
        count += words[place].count_ones();
    }
    count
}

/// How many bits are set from one place up to another: whole words at once.
#[tactic(auto, using(crate::proofs::Counting::three_parts))]
pub(crate) fn count_set(words: &[u64], from: usize, to: usize) -> u32
    requires order { from ≤ to }
    requires within { to ≤ 64 * length words.now }
    requires few { to < 2 ^ 32 }
    ensures { result ≡ set_bits words.now from (to - from) }
{
    let (first, last) = (from.div_ceil(64), to / 64);
    if first < last {
        count_places(words, from, 64 * first)
            + count_words(words, first, last)
            + count_places(words, 64 * last, to)
    } else {
        count_places(words, from, to)
    }
}
