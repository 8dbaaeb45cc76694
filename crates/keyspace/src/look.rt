/// What stands at a key, looked at as a value of one type.
#[derive(Clone, Copy, Debug)]
pub enum Look<T> {
    /// Nothing stands there.
    Missing,
    /// A value of another type.
    Other,
    /// A value of the type.
    There(T),
}
