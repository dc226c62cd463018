ghost use Rattle.std.specs.Prelude.{◌≡◌, ℕ, ◌+◌, ◌<◌, ◌≤◌, true, false, length, Some, None, IfSome, IfNone};
ghost use Rattle.rc_instance.specs.Misfit.{HasNoMisfit};
ghost use Rattle.key_sampling.specs.Samples.{sample_keys};
ghost use Rattle.key_sampling.specs.Tools.{IsPlaced, HaveSameKeys, list_in, places_in};
ghost use Rattle.key_sampling.specs.Race.{view_of, sample_in_hand, value_in, IsSeekerOf, StaysAtWork};
ghost use Rattle.key_sampling.specs.Workers.{IsReady, HasEnded, BoundsNext};

use crate::race::Race;
use crate::seeker::Seeker;
use crate::tools::Tools;
use crate::word::word_of;
use crate::worker::Worker;
use time_windows::Windows;

// Takes samples, and gives up or values each, until none is left.
pub(crate) fn search(race: &Race<'_>, windows: &Windows<'_>, worker: &mut Worker<'_>)
    requires ready { IsReady race.now worker.old }
    requires windows { windows.now ≡ race.now.terms.net.now }
    requires fits { HasNoMisfit race.now.terms.net.now.project }
    ensures { HasEnded race.now worker.old worker.new }
{
    // An order of the net shows that the list of each sample is feasible.
    let _order = race.terms.net.order();
    let floor = windows.critical().max(windows.capacity_bound());
    'samples: while let Some(sample) = race.take(&mut worker.seeker) {
        try_sample(race, windows, floor, sample, worker);
    }
}

// Gives the sample in hand up, or values it.
fn try_sample(
    race: &Race<'_>,
    windows: &Windows<'_>,
    floor: u32,
    sample: u32,
    worker: &mut Worker<'_>,
)
    requires own { IsSeekerOf race.now worker.old.seeker }
    requires hand { sample_in_hand (view_of worker.old.seeker) ≡ Some sample }
    requires network { worker.old.tools.net.now ≡ race.now.terms.net.now }
    requires windows { windows.now ≡ race.now.terms.net.now }
    requires fits { HasNoMisfit race.now.terms.net.now.project }
    requires floor { floor ≤ value_in race.now sample }
    ensures stays { StaysAtWork race.now worker.old.seeker worker.new.seeker }
    ensures idle { sample_in_hand (view_of worker.new.seeker) ≡ None }
    ensures network { worker.new.tools.net.now ≡ worker.old.tools.net.now }
{
    if race.give_up(&mut worker.seeker, floor) {
        return;
    }
    worker.tools.begin(race.terms.seed, sample);
    let value = place_all(
        race,
        windows,
        floor,
        sample,
        &mut worker.seeker,
        &mut worker.tools,
    );
    if let Some(makespan) = value {
        race.value(&mut worker.seeker, makespan);
    }
}

// Chooses and places the activities of the sample in hand, one after another, and answers its
// makespan, unless it is given up on the way: the greatest sum of a start and a tail is a bound of the
// makespan, and in the end is it.
fn place_all(
    race: &Race<'_>,
    windows: &Windows<'_>,
    floor: u32,
    sample: u32,
    seeker: &mut Seeker,
    tools: &mut Tools<'_>,
) -> Option<u32>
    requires own { IsSeekerOf race.now seeker.old }
    requires hand { sample_in_hand (view_of seeker.old) ≡ Some sample }
    requires network { tools.old.net.now ≡ race.now.terms.net.now }
    requires windows { windows.now ≡ race.now.terms.net.now }
    requires fits { HasNoMisfit race.now.terms.net.now.project }
    requires floor { floor ≤ value_in race.now sample }
    requires keys { tools.old.keys.items
        ≡ sample_keys race.now.terms.net.now.project race.now.terms.seed sample }
    requires placed { IsPlaced tools.old }
    requires none { places_in tools.old ≡ 0 }
    ensures stays { StaysAtWork race.now seeker.old seeker.new }
    ensures network { tools.new.net.now ≡ tools.old.net.now }
    ensures value { IfSome result (λ makespan. (makespan ≡ value_in race.now sample)
        × (sample_in_hand (view_of seeker.new) ≡ Some sample)) }
    ensures given_up { IfNone result (sample_in_hand (view_of seeker.new) ≡ None) }
{
    let mut bound = floor;
    'places: while let Some(reached) = place_next(windows, bound, tools) {
        bound = reached;
        if gives_up(race, bound, sample, seeker) {
            return None;
        }
    }
    Some(bound)
}

// Places the next activity, if one is left, and answers the bound that grows with it.
#[inline(always)]
fn place_next(windows: &Windows<'_>, bound: u32, tools: &mut Tools<'_>) -> Option<u32>
    requires windows { windows.now ≡ tools.old.net.now }
    requires fits { HasNoMisfit tools.old.net.now.project }
    requires placed { IsPlaced tools.old }
    ensures same { HaveSameKeys tools.old tools.new }
    ensures placed { IsPlaced tools.new }
    ensures bound { IfSome result (λ reached. BoundsNext tools.old.net.now.project
        (list_in tools.old) (places_in tools.old) bound reached) }
    ensures more { IfSome result (λ _. places_in tools.new ≡ places_in tools.old + 1) }
    ensures none { IfNone result ((length (list_in tools.old) ≤ places_in tools.old)
        × (places_in tools.new ≡ places_in tools.old)) }
{
    let Some(placed) = tools.place_next() else {
        return None;
    };
    let reach = placed.start + windows.tail(placed.activity);
    Some(bound.max(reach))
}

// Gives the sample in hand up, where a bound of its makespan shows that it is not the best. The best
// word that was seen is asked first: the best word never rises.
fn gives_up(race: &Race<'_>, bound: u32, sample: u32, seeker: &mut Seeker) -> bool
    requires own { IsSeekerOf race.now seeker.old }
    requires hand { sample_in_hand (view_of seeker.old) ≡ Some sample }
    requires bound { bound ≤ value_in race.now sample }
    ensures stays { StaysAtWork race.now seeker.old seeker.new }
    ensures given_up { result ≡ true → sample_in_hand (view_of seeker.new) ≡ None }
    ensures kept { result ≡ false → sample_in_hand (view_of seeker.new) ≡ Some sample }
{
    seeker.best_seen() < word_of(bound, sample) && race.give_up(seeker, bound)
}
