use event::event::Event;

/// What one guard answers to an event: for each position of the outer variable's value a row of bits, one for each position of the inner one's.
#[derive(Clone, Copy)]
pub struct Replies {
    pub(crate) rows: [u32; 17],
}

/// Room for what the guards of so many nodes and arrows answer.
#[derive(Clone, Copy)]
pub struct Entries<const N: usize, const A: usize> {
    pub(crate) nodes: [Replies; N],
    pub(crate) arrows: [Replies; A],
}

/// What the guards of a diagram answer to an event, by the numbers of the nodes and arrows that ask them.
#[derive(Clone, Copy)]
pub struct Answers<'a> {
    pub(crate) event: Event,
    pub(crate) nodes: &'a [Replies],
    pub(crate) arrows: &'a [Replies],
}
