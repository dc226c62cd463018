use activity_net::Net;

/// What a race is about: the samples of a seed, on a net, from a number on, so many.
#[derive(Drop)]
pub struct Terms<'n> {
    pub net: &'n Net,
    pub seed: u64,
    pub from: u32,
    pub count: u32,
}
