ghost use Rattle.std.specs.Prelude.{◌≡◌, ◌+◌, ◌-◌, ◌*◌, ◌<◌, ◌≤◌, ◌++◌, [], ◌∷◌, length, map, replicate, ◌==◌, ◌&&◌, not, IfOk, OnOk, if◌then◌else◌};
ghost use Rattle.std.specs.List.{flat_map};
ghost use Rattle.rc_instance.specs.Lists.{numbers};
ghost use Rattle.rc_instance.specs.declared.limits.TheConstants.{MAX_ACTIVITIES, MAX_RESOURCES};
ghost use Rattle.trial_instance.specs.Trial.{first_word, inner, trial_capacity, trial_duration, trial_demands, trial_successors, was_drawn, word_count};

use rc_instance::Memory;
use std::alloc::Global;

// The place of the first word of an activity.
pub(crate) fn first_word(resources: u32, activity: u32) -> usize
    requires activity { (2 ≤ activity) × (activity ≤ MAX_ACTIVITIES) }
    requires resources { resources ≤ MAX_RESOURCES }
    ensures { result ≡ first_word resources activity }
{
    resources as usize + (activity as usize - 2) * (resources as usize + 3)
}

pub(crate) fn capacities(alloc: Global, words: &[u32]) -> Result<Vec<u32>, Memory>
    ensures { IfOk result (λ capacities. capacities.items ≡ map trial_capacity words.now) }
{
    Ok(words.iter().map(|word| 10 + *word % 11).collect(alloc)?)
}

pub(crate) fn durations(
    alloc: Global,
    activities: u32,
    resources: u32,
    words: &[u32],
) -> Result<Vec<u32>, Memory>
    requires activities { (2 ≤ activities) × (activities ≤ MAX_ACTIVITIES) }
    requires resources { resources ≤ MAX_RESOURCES }
    requires words { length words.now ≡ word_count activities resources }
    ensures { IfOk result (λ durations. durations.items
        ≡ 0 ∷ map (trial_duration resources words.now) (inner activities) ++ 0 ∷ []) }
{
    let mut durations = Vec::new(alloc);
    durations.push(0)?;
    for activity in 2..activities {
        durations.push(1 + words[first_word(resources, activity)] % 10)?;
    }
    durations.push(0)?;
    Ok(durations)
}

pub(crate) fn demands(
    alloc: Global,
    activities: u32,
    resources: u32,
    words: &[u32],
) -> Result<Vec<u32>, Memory>
    requires activities { (2 ≤ activities) × (activities ≤ MAX_ACTIVITIES) }
    requires resources { resources ≤ MAX_RESOURCES }
    requires words { length words.now ≡ word_count activities resources }
    ensures { IfOk result (λ demands. demands.items ≡ replicate resources 0
        ++ flat_map (trial_demands resources words.now) (inner activities)
        ++ replicate resources 0) }
{
    let none = vec![in alloc; 0; resources as usize]?;
    let mut demands = Vec::from_slice(alloc, &none)?;
    for activity in 2..activities {
        push_demands(activity, resources, words, &mut demands)?;
    }
    demands.extend_from_slice(&none)?;
    Ok(demands)
}

fn push_demands(
    activity: u32,
    resources: u32,
    words: &[u32],
    demands: &mut Vec<u32>,
) -> Result<(), Memory>
    requires activity { (2 ≤ activity) × (activity ≤ MAX_ACTIVITIES) }
    requires resources { resources ≤ MAX_RESOURCES }
    requires words { first_word resources activity + resources < length words.now }
    ensures { OnOk result (demands.new.items
        ≡ demands.old.items ++ trial_demands resources words.now activity) }
{
    let first = first_word(resources, activity);
    for resource in 1..resources + 1 {
        demands.push(words[first + resource as usize] % 11)?;
    }
    Ok(())
}

pub(crate) fn successors(
    alloc: Global,
    activities: u32,
    resources: u32,
    words: &[u32],
) -> Result<Vec<Vec<u32>>, Memory>
    requires activities { (2 ≤ activities) × (activities ≤ MAX_ACTIVITIES) }
    requires resources { resources ≤ MAX_RESOURCES }
    requires words { length words.now ≡ word_count activities resources }
    ensures { IfOk result (λ lists. map (λ list. list.items) lists.items
        ≡ map (trial_successors activities resources words.now) (numbers activities)) }
{
    let mut lists = Vec::new(alloc);
    for activity in 1..activities + 1 {
        lists.push(successors_of(alloc, activity, activities, resources, words)?)?;
    }
    Ok(lists)
}

fn successors_of(
    alloc: Global,
    activity: u32,
    activities: u32,
    resources: u32,
    words: &[u32],
) -> Result<Vec<u32>, Memory>
    requires activities { (2 ≤ activities) × (activities ≤ MAX_ACTIVITIES) }
    requires resources { resources ≤ MAX_RESOURCES }
    requires words { length words.now ≡ word_count activities resources }
    ensures { IfOk result (λ list. list.items
        ≡ trial_successors activities resources words.now activity) }
{
    let mut list = Vec::new(alloc);
    for later in 2..activities {
        push_if(
            was_drawn(activity, later, resources, words),
            later,
            &mut list,
        )?;
    }
    let ends = is_last_next(&list, activity, activities);
    push_if(ends, activities, &mut list)?;
    Ok(list)
}

// Whether the last activity follows an activity, since none that was drawn does.
fn is_last_next(drawn: &[u32], activity: u32, activities: u32) -> bool
    ensures { result ≡ ((length drawn.now == 0) && not (activity == activities)) }
{
    drawn.is_empty() && activity != activities
}

// Puts a number behind a list, or leaves it.
fn push_if(may: bool, number: u32, list: &mut Vec<u32>) -> Result<(), Memory>
    ensures { OnOk result (list.new.items
        ≡ list.old.items ++ (if may then number ∷ [] else [])) }
{
    if may {
        list.push(number)?;
    }
    Ok(())
}

// Whether an activity was drawn as a predecessor of a later one.
fn was_drawn(activity: u32, later: u32, resources: u32, words: &[u32]) -> bool
    requires later { (2 ≤ later) × (later ≤ MAX_ACTIVITIES) }
    requires resources { resources ≤ MAX_RESOURCES }
    requires words { first_word resources later + resources + 2 < length words.now }
    ensures { result ≡ was_drawn resources words.now activity later }
{
    let row = first_word(resources, later) + resources as usize;
    1 + words[row + 1] % (later - 1) == activity || 1 + words[row + 2] % (later - 1) == activity
}
