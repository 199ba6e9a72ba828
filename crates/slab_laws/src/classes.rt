/// Two things of one class.
#[derive(Clone, Copy)]
pub struct Link<T> {
    pub one: T,
    pub other: T,
}

/// A thing, and the least of its class.
#[derive(Clone, Copy)]
pub struct Label<T> {
    pub item: T,
    pub least: T,
}
