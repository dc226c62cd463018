// The words of a table on which no step is taken any more.
ghost use Rattle.std.specs.Prelude.{◌≡◌, ◌<◌, length, slice_index};
ghost use Rattle.std.specs.Mem.Slots.{slots_items, slots_len, IsFull};

use atomic_table::Closed;
use std::alloc::Global;
use std::marker::Model;

// Contracts see it as the list of its words.
pub(crate) struct Shut {
    closed: Closed<(), Global>,
}

impl Model for Shut {
    ghost use Rattle.std.specs.Prelude.{ℕ, List};
    ghost use Rattle.book_table.specs.ShutView.{words_of, IsShut};

    ghost Value = { List ℕ };

    ghost view = { words_of };

    ghost invariant = { IsShut };
}

impl Shut {
    pub(crate) fn of(closed: Closed<(), Global>) -> Shut
        requires full { IsFull closed.words }
        requires long { slots_len closed.words ≡ length (slots_items closed.words) }
        requires bare { slots_len closed.slots ≡ 0 }
        ensures { result ≡ slots_items closed.words }
    {
        Shut { closed }
    }

    pub(crate) fn at(&self, place: usize) -> u64
        requires { place < length self.now }
        ensures { result ≡ slice_index self.now place }
    {
        self.closed.word(place)
    }
}

impl Drop for Shut {
    fn drop(self) {
        let Shut { closed } = self;
        closed.free();
    }
}
