ghost use Rattle.std.specs.Prelude.{◌≡◌, ◌<◌, ◌≤◌, length, map, All, IfErr, IfOk};
ghost use Rattle.rc_instance.specs.declared.limits.TheConstants.{MAX_FILE_BYTES};
ghost use Rattle.patterson_read.specs.ListFile.{read_list};
ghost use Rattle.activity_net.specs.ListFault.{first_list_fault};
ghost use Rattle.rcpsp_run.specs.Causes.{IsOfTexts, Gives};
ghost use Rattle.rcpsp_run.specs.Steps.Text.{in_text};
ghost use Rattle.rcpsp_run.specs.Steps.List.{order_names, numbers_in, list_by, without_list_fault};

use crate::refusal::Refusal;
use crate::steps::text::bad_text;
use activity_net::{FeasibleList, ListFault, Net};
use patterson_read::read_list;
use priority_rules::list_of;
use rcpsp_words::{Name, Order};
use std::alloc::Global;
use time_windows::Windows;

/// The numbers of the list file, which is the second text; a rule has none.
pub(crate) fn numbers_in(
    alloc: Global,
    order: &Order,
    texts: &[Vec<u8>],
) -> Result<Vec<u32>, Refusal>
    requires each { length (order_names order.now) < length texts.now }
    requires short { All (λ text. length text.items ≤ MAX_FILE_BYTES) texts.now }
    ensures numbers { Gives (λ numbers. numbers.items) result
        (numbers_in order.now (map (λ text. text.items) texts.now)) }
    ensures texts { IfErr result IsOfTexts }
{
    match order {
        Order::Rule(_) => Ok(Vec::new(alloc)),
        Order::List(name) => list_in(alloc, name, &texts[1]),
    }
}

// The numbers of the text of a list file.
fn list_in(alloc: Global, name: &Name, text: &[u8]) -> Result<Vec<u32>, Refusal>
    requires { length text.now ≤ MAX_FILE_BYTES }
    ensures list { Gives (λ list. list.items) result (in_text name.now (read_list text.now)) }
    ensures texts { IfErr result IsOfTexts }
{
    match read_list(alloc, text) {
        Ok(list) => Ok(list),
        Err(fault) => Err(bad_text(alloc, name, fault)),
    }
}

/// The list that a schedule follows: that of a rule, or these numbers of a file.
pub(crate) fn list_by<'n>(
    alloc: Global,
    net: &'n Net,
    order: &Order,
    numbers: &[u32],
) -> Result<FeasibleList<'n>, Refusal>
    ensures net { IfOk result (λ list. list.network ≡ net.entry.now) }
    ensures list { Gives (λ list. list.order) result
        (list_by net.entry.now.project order.now numbers.now) }
    ensures texts { IfErr result IsOfTexts }
{
    match order {
        Order::Rule(rule) => {
            let windows = Windows::of(alloc, net)?;
            Ok(list_of(alloc, net, &windows, *rule)?)
        }
        Order::List(_) => feasible_list(alloc, net, numbers),
    }
}

// The feasible list of these numbers.
fn feasible_list<'n>(
    alloc: Global,
    net: &'n Net,
    numbers: &[u32],
) -> Result<FeasibleList<'n>, Refusal>
    ensures net { IfOk result (λ list. list.network ≡ net.entry.now) }
    ensures list { Gives (λ list. list.order) result (without_list_fault numbers.now
        (first_list_fault net.entry.now.project numbers.now)) }
    ensures texts { IfErr result IsOfTexts }
{
    match FeasibleList::of(alloc, net, numbers) {
        Ok(list) => Ok(list),
        Err(ListFault::Memory) => Err(Refusal::Memory),
        Err(fault) => Err(Refusal::BadList(fault)),
    }
}
