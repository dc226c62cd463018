ghost use Rattle.std.specs.Prelude.{◌≡◌, ℕ, ◌/◌, ◌<◌, ◌||◌, length, nat_eq};
ghost use Rattle.activity_net.specs.Follows.{has_bit};

// Sets of numbers, a bit for each in words of 64.

// Whether the set has a number.
#[tactic(auto, unfolding(crate::specs::Follows::has_bit))]
pub(crate) fn has(words: &[u64], number: u32) -> bool
    requires { number / 64 < length words.now }
    ensures { result ≡ has_bit words.now number }
{
    (words[number as usize / 64] >> (number % 64)) & 1 == 1
}

// Puts a number into the set.
pub(crate) fn insert(words: &mut [u64], number: u32)
    requires { number / 64 < length words.old }
    ensures { (n : ℕ) → has_bit words.new n ≡ (nat_eq number n || has_bit words.old n) }
{
    words[number as usize / 64] |= 1 << (number % 64);
}

// Puts all numbers of another set into the set.
pub(crate) fn insert_all(words: &mut [u64], others: &[u64])
    requires { length others.now ≡ length words.old }
    ensures { (n : ℕ) → has_bit words.new n ≡ (has_bit words.old n || has_bit others.now n) }
{
    for i in 0..words.len() {
        words[i] |= others[i];
    }
}
