// What comes of a text, whatever is done with what it poses.

/// What comes of a text.
#[derive(Drop)]
pub enum Reply<T> {
    /// It says no theory, and is refused at this place.
    Refused(usize),
    /// There are findings on its theory, and these are their lines.
    Reported(Vec<u8>),
    /// There are none, and this comes of what it poses.
    Done(T),
}
