ghost use Rattle.std.specs.Prelude.{◌≡◌, ℕ, List};
ghost use Rattle.rc_edge.specs.Tokens.{tokens_after, tokens_of};

/// From offset 0 on all tokens of a text are left.
pub fn tokens_from_the_start()
    ensures { (bytes : List ℕ) → tokens_after bytes 0 ≡ tokens_of bytes }
{}
