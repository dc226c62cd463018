ghost use Rattle.std.specs.Prelude.{◌≡◌, ℕ, ◌+◌, ◌<◌, ◌≤◌, length, vec_len, IfOk, IfSome, IfNone};
ghost use Rattle.rc_instance.specs.declared.limits.TheConstants.{MAX_HORIZON};
ghost use Rattle.rc_instance.specs.Project.{activity_count};
ghost use Rattle.rc_instance.specs.Misfit.{HasNoMisfit};
ghost use Rattle.priority_rules.specs.Picking.{HasRoom};

use crate::keys::draw_keys;
use activity_net::Net;
use event_line::Line;
use priority_rules::Picker;
use rc_instance::{Memory, Schedule};
use serial_plain::serial_step_of;
use std::alloc::Global;

// What a worker needs to schedule one sample after another. All its memory is taken at once.
#[derive(Drop)]
pub(crate) struct Tools<'n> {
    pub(crate) net: &'n Net,
    pub(crate) keys: Vec<u32>,
    pub(crate) picker: Picker,
    pub(crate) line: Line<'n>,
    pub(crate) schedule: Schedule,
    ghost keys_count: { vec_len keys ≡ activity_count net.now.project },
    ghost picker_room: { HasRoom net.now.project picker },
    ghost line_project: { line.project ≡ net.now.project },
    ghost schedule_count: { length schedule ≡ activity_count net.now.project },
}

// An activity that was placed, and its start.
#[derive(Clone, Copy)]
pub(crate) struct Placed {
    pub(crate) activity: u32,
    pub(crate) start: u32,
}

impl<'n> Tools<'n> {
    ghost use Rattle.key_sampling.specs.Samples.{sample_keys, sample_makespan};
    ghost use Rattle.key_sampling.specs.Tools.{IsPlaced, IsNextPlaced, HaveSameKeys, list_in, places_in};

    pub(crate) fn new(alloc: Global, net: &'n Net) -> Result<Tools<'n>, Memory>
        ensures { IfOk result (λ tools. tools.net.now ≡ net.now) }
    {
        let count = net.instance().count();
        Ok(Tools {
            net,
            keys: vec![in alloc; 0; count as usize]?,
            picker: Picker::new(alloc, net)?,
            line: Line::new(alloc, net.instance())?,
            schedule: Schedule::zero(alloc, count)?,
        })
    }

    // Draws the keys of a sample. Nothing is placed.
    pub(crate) fn begin(&mut self, seed: u64, sample: u32)
        ensures net { self.new.net.now ≡ self.old.net.now }
        ensures keys { self.new.keys.items ≡ sample_keys self.old.net.now.project seed sample }
        ensures placed { IsPlaced self.new }
        ensures none { places_in self.new ≡ 0 }
    {
        draw_keys(seed, sample, &mut self.keys);
        self.picker.begin(self.net, &self.keys);
        self.line.clear();
    }

    // Picks the next activity of the list by the keys, and places it. Once all are placed there is
    // none.
    #[inline(always)]
    pub(crate) fn place_next(&mut self) -> Option<Placed>
        requires fits { HasNoMisfit self.old.net.now.project }
        requires placed { IsPlaced self.old }
        ensures same { HaveSameKeys self.old self.new }
        ensures placed { IsPlaced self.new }
        ensures next { IfSome result (λ placed. IsNextPlaced self.old.net.now.project
            (list_in self.old) (places_in self.old) placed) }
        ensures more { IfSome result (λ _. places_in self.new ≡ places_in self.old + 1) }
        ensures none { IfNone result ((length (list_in self.old) ≤ places_in self.old)
            × (places_in self.new ≡ places_in self.old)) }
    {
        let Some(activity) = self.picker.pick(self.net, &self.keys) else {
            return None;
        };
        let start = serial_step_of(self.net, &mut self.line, &mut self.schedule, activity);
        Some(Placed { activity, start })
    }

    // The makespan of a sample.
    pub(crate) fn value(&mut self, seed: u64, sample: u32) -> u32
        requires { HasNoMisfit self.old.net.now.project }
        ensures net { self.new.net.now ≡ self.old.net.now }
        ensures value { result ≡ sample_makespan self.old.net.now.project seed sample }
        ensures within { result ≤ MAX_HORIZON }
    {
        self.begin(seed, sample);
        let mut makespan: u32 = 0;
        'places: while let Some(placed) = self.place_next() {
            let finish = placed.start + self.net.instance().duration(placed.activity);
            makespan = makespan.max(finish);
        }
        makespan
    }
}
