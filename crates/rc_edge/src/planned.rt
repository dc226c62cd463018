ghost use Rattle.std.specs.Prelude.{◌≡◌, ◌<◌, ◌==◌, length, IsTrue};
ghost use Rattle.std.specs.List.{list_any};

/// Whether the call with this number is one of those that are to fail.
pub(crate) fn is_planned(failing: &[u32], number: u64) -> bool
    ensures planned { result ≡ list_any (λ planned. planned == number) failing.now }
    ensures some { IsTrue result → 0 < length failing.now }
{
    failing.iter().any(|planned| u64::from(*planned) == number)
}
