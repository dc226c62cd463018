// What each kind of step tells. These types are for the proofs alone.
ghost use Rattle.std.specs.Prelude.{ℕ};
ghost use Rattle.book_rule.specs.Views.{after_split, split_off, after_join, spent_view};
ghost use Rattle.book_rule.specs.Told.{Tells, Looked, Begun, Ended, Claimed, ClaimedKnown, Loaded, StartLoaded, Added, Stored, Released, Drew, OfferLoaded, Raised, FloorLoaded, FloorStored};

use atomic_table::{Join, Play, Split};
use book_rule::View;
use std::marker::{Brand, PhantomData};

// The numbers of a call that its step does not show: the position, the start, the period or the block, and the index of
// a word.
pub trait Aim {
    ghost place: { ℕ };

    ghost index: { ℕ };
}

impl Aim for Brand {
    ghost place = { 0 };

    ghost index = { 0 };
}

pub(crate) struct Look;

impl Play<(), View> for Look {
    ghost then = { λ st me x after. Tells Looked me x after };
}

pub(crate) struct Begin<A> {
    aim: PhantomData<A>,
}

impl<A: Aim> Play<(), View> for Begin<A> {
    ghost then = { λ st me x after. Tells (Begun A.place) me x after };
}

pub(crate) struct End;

impl Play<(), View> for End {
    ghost then = { λ st me x after. Tells Ended me x after };
}

pub(crate) struct Claim;

impl Play<(), View> for Claim {
    ghost then = { λ st me x after. Tells (Claimed st.first) me x after };
}

pub(crate) struct ClaimKnown<A> {
    aim: PhantomData<A>,
}

impl<A: Aim> Play<(), View> for ClaimKnown<A> {
    ghost then = { λ st me x after. Tells (ClaimedKnown st.first A.place) me x after };
}

pub(crate) struct LoadProfile<A> {
    aim: PhantomData<A>,
}

impl<A: Aim> Play<(), View> for LoadProfile<A> {
    ghost then = { λ st me x after. Tells (Loaded A.place A.index) me x after };
}

pub(crate) struct LoadStart<A> {
    aim: PhantomData<A>,
}

impl<A: Aim> Play<(), View> for LoadStart<A> {
    ghost then = { λ st me x after. Tells (StartLoaded A.place) me x after };
}

pub(crate) struct Add;

impl Play<(), View> for Add {
    ghost then = { λ st me x after. Tells Added me x after };
}

pub(crate) struct Store;

impl Play<(), View> for Store {
    ghost then = { λ st me x after. Tells Stored me x after };
}

pub(crate) struct Release;

impl Play<(), View> for Release {
    ghost then = { λ st me x after. Tells Released me x after };
}

pub(crate) struct Draw;

impl Play<(), View> for Draw {
    ghost then = { λ st me x after. Tells Drew me x after };
}

pub(crate) struct LoadOffer<A> {
    aim: PhantomData<A>,
}

impl<A: Aim> Play<(), View> for LoadOffer<A> {
    ghost then = { λ st me x after. Tells (OfferLoaded A.place) me x after };
}

pub(crate) struct RaiseOffer<A> {
    aim: PhantomData<A>,
}

impl<A: Aim> Play<(), View> for RaiseOffer<A> {
    ghost then = { λ st me x after. Tells (Raised A.place st.first) me x after };
}

pub(crate) struct LoadFloor<A> {
    aim: PhantomData<A>,
}

impl<A: Aim> Play<(), View> for LoadFloor<A> {
    ghost then = { λ st me x after. Tells (FloorLoaded A.place A.index) me x after };
}

pub(crate) struct StoreFloor;

impl Play<(), View> for StoreFloor {
    ghost then = { λ st me x after. Tells FloorStored me x after };
}

// Pass 0 is cut in two.
pub(crate) struct Part;

impl Split<View> for Part {
    ghost left = { after_split };

    ghost right = { split_off };
}

// Pass 0 takes in another pass.
pub(crate) struct Gather;

impl Join<View> for Gather {
    ghost both = { after_join };

    ghost spent = { spent_view };
}
