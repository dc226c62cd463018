ghost use Rattle.std.specs.Prelude.{◌≡◌, ℕ, ◌<◌, ◌≤◌, length, All};
ghost use Rattle.std.specs.List.{find};
ghost use Rattle.rc_instance.specs.Lists.{IsUpTo, numbers};
ghost use Rattle.activity_net.specs.Tables.{is_unmarked};

// The first of these activities that has no mark.
pub(crate) fn first_unmarked(activities: &[u32], marks: &[bool]) -> Option<u32>
    requires { All (IsUpTo (length marks.now)) activities.now }
    ensures { result ≡ find (is_unmarked marks.now) activities.now }
{
    activities.iter().copied().find(|a| !marks[*a as usize - 1])
}

// The least activity that has no mark.
pub(crate) fn least_unmarked(marks: &[bool]) -> Option<u32>
    requires { length marks.now ≤ 1000 }
    ensures { result ≡ find (is_unmarked marks.now) (numbers (length marks.now)) }
{
    (1..marks.len() as u32 + 1).find(|a| !marks[*a as usize - 1])
}
