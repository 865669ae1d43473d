// What two proposals select.

// Which proposal is chosen, with its radius.
#[derive(Clone, Copy, Debug, PartialEq, Eq)]
pub(crate) enum Chosen {
    First(u32),
    Second(u32),
}
