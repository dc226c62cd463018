ghost use Rattle.std.specs.Prelude.{◌≡◌, ◌+◌, ◌<◌, [], ◌∷◌, ◌++◌, length, take, All};
ghost use Rattle.std.specs.List.Sorted.{IsPermutation};
ghost use Rattle.rc_instance.specs.Lists.{IsUpTo};
ghost use Rattle.priority_rules.specs.Choosing.{IsPile, rank_in};

/// Adds a number to the front part of a list that is a pile: of falling rank, so that the number that
/// goes first is the last one, and is taken from the end.
///
/// A number that becomes free mostly goes before most others, so few of them move.
pub(crate) fn add(keys: &[u32], pile: &mut [u32], count: usize, number: u32)
    requires room { count < length pile.old }
    requires number { IsUpTo (length keys.now) number }
    requires numbers { All (IsUpTo (length keys.now)) (take count pile.old) }
    requires falling { IsPile keys.now pile.old count }
    ensures added { IsPermutation (take count pile.old ++ number ∷ [])
        (take (count + 1) pile.new) }
    ensures falling { IsPile keys.now pile.new (count + 1) }
{
    let rank = rank_of(keys, number);
    let mut place = count;
    while place > 0 && rank_of(keys, pile[place - 1]) < rank {
        pile[place] = pile[place - 1];
        place -= 1;
    }
    pile[place] = number;
}

// The rank of a number. It lives for one comparison, which it makes a single one.
fn rank_of(keys: &[u32], number: u32) -> u64
    requires { IsUpTo (length keys.now) number }
    ensures { result ≡ rank_in keys.now number }
{
    u64::from(keys[number as usize - 1]) * (1 << 32) + u64::from(number)
}
