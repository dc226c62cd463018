ghost use Rattle.std.specs.Prelude.{◌≡◌, ◌≤◌};
ghost use Rattle.rcpsp_words.specs.Values.Size.{InstanceSize, size_of};

use std::marker::Model;

/// The size of an instance that is made from a number: 2 to 1,000 activities, and up to 16 resources.
#[derive(Debug, Drop)]
pub struct Size {
    activities: u32,
    resources: u32,
}

impl Model for Size {
    ghost Value = { InstanceSize };

    ghost view = { λ size. record { activities = size.activities; resources = size.resources } };

    ghost invariant = { λ size. (2 ≤ size.activities) × (size.activities ≤ 1000)
        × (size.resources ≤ 16) };
}

impl Size {
    /// So many activities, or else 100, and so many resources, or else 4.
    pub(crate) fn of(activities: Option<u64>, resources: Option<u64>) -> Option<Size>
        ensures { result ≡ size_of activities resources }
    {
        let activities = activities.unwrap_or(100);
        let resources = resources.unwrap_or(4);
        if 2 <= activities && activities <= 1000 && resources <= 16 {
            Some(Size {
                activities: activities as u32,
                resources: resources as u32,
            })
        } else {
            None
        }
    }

    /// How many activities there are.
    pub fn activities(&self) -> u32
        ensures value { result ≡ self.now.activities }
        ensures limits { (2 ≤ result) × (result ≤ 1000) }
    {
        self.activities
    }

    /// How many resources there are.
    pub fn resources(&self) -> u32
        ensures value { result ≡ self.now.resources }
        ensures limits { result ≤ 16 }
    {
        self.resources
    }
}
